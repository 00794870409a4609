//! The words of the grammar, in their long and their short form (RFC 3525, Annex B.2).

ghost use Rattle.std.specs.Prelude.{◌≡◌, Some, IfSome, length, take};
ghost use Rattle.std.specs.Bool.{OnTrue};
ghost use Rattle.gw_text.specs.Lexical.{is_safe};
ghost use Rattle.gw_text.specs.Runs.{IsRun, run_len};
ghost use Rattle.gw_text.specs.Tokens.{table, is_same_word, is_spelling, find_token, token_of};
ghost use Rattle.gw_text.specs.TokenTable.{entries, rows_in, IsForm, IsNext};

use crate::class::is_safe;

/// A word that the grammar knows.
#[derive(Clone, Copy, Debug, PartialEq, Eq)]
pub enum Token {
    Add,
    Audit,
    AuditCapability,
    AuditValue,
    Bothway,
    Context,
    ContextAudit,
    Delay,
    DigitMap,
    Emergency,
    Error,
    EventBuffer,
    Events,
    Forced,
    Inactive,
    InService,
    Isolate,
    Local,
    LocalControl,
    Loopback,
    Media,
    Method,
    Mode,
    Modem,
    Modify,
    Move,
    Mux,
    Notify,
    ObservedEvents,
    Oneway,
    OutOfService,
    Packages,
    Pending,
    Priority,
    Reason,
    ReceiveOnly,
    Remote,
    Reply,
    Restart,
    SendOnly,
    SendReceive,
    ServiceChange,
    ServiceStates,
    Services,
    Signals,
    Statistics,
    Stream,
    Subtract,
    TerminationState,
    Test,
    Topology,
    Transaction,
    TransactionResponseAck,
}

/// The long form of a token, its short form, and the token.
#[derive(Clone, Copy)]
struct Spelling(&'static [u8], &'static [u8], Token);

// The two forms of each of these three begin with different letters: they stand with the tokens of both.
const LOCAL_CONTROL: Spelling = Spelling(b"LocalControl", b"O", Token::LocalControl);

const REPLY: Spelling = Spelling(b"Reply", b"P", Token::Reply);

const RESPONSE_ACK: Spelling = Spelling(
    b"TransactionResponseAck",
    b"K",
    Token::TransactionResponseAck,
);

/// The tokens with a form that begins with the letter, which is in lower case, in the order of use: a word is looked up
/// among these alone.
fn tokens_in(letter: u8) -> &'static [Spelling]
    ensures { entries result.now ≡ rows_in letter table }
{
    match letter {
        b'a' => &[
            Spelling(b"Add", b"A", Token::Add),
            Spelling(b"AuditValue", b"AV", Token::AuditValue),
            Spelling(b"Audit", b"AT", Token::Audit),
            Spelling(b"AuditCapability", b"AC", Token::AuditCapability),
        ],
        b'b' => &[Spelling(b"Bothway", b"BW", Token::Bothway)],
        b'c' => &[
            Spelling(b"Context", b"C", Token::Context),
            Spelling(b"ContextAudit", b"CA", Token::ContextAudit),
        ],
        b'd' => &[
            Spelling(b"DigitMap", b"DM", Token::DigitMap),
            Spelling(b"Delay", b"DL", Token::Delay),
        ],
        b'e' => &[
            Spelling(b"Events", b"E", Token::Events),
            Spelling(b"EventBuffer", b"EB", Token::EventBuffer),
            Spelling(b"Error", b"ER", Token::Error),
            Spelling(b"Emergency", b"EG", Token::Emergency),
        ],
        b'f' => &[Spelling(b"Forced", b"FO", Token::Forced)],
        b'i' => &[
            Spelling(b"Inactive", b"IN", Token::Inactive),
            Spelling(b"InService", b"IV", Token::InService),
            Spelling(b"Isolate", b"IS", Token::Isolate),
        ],
        b'k' => &[RESPONSE_ACK],
        b'l' => &[
            Spelling(b"Local", b"L", Token::Local),
            LOCAL_CONTROL,
            Spelling(b"Loopback", b"LB", Token::Loopback),
        ],
        b'm' => &[
            Spelling(b"Media", b"M", Token::Media),
            Spelling(b"Mode", b"MO", Token::Mode),
            Spelling(b"Modify", b"MF", Token::Modify),
            Spelling(b"Move", b"MV", Token::Move),
            Spelling(b"Method", b"MT", Token::Method),
            Spelling(b"Modem", b"MD", Token::Modem),
            Spelling(b"Mux", b"MX", Token::Mux),
        ],
        b'n' => &[Spelling(b"Notify", b"N", Token::Notify)],
        b'o' => &[
            LOCAL_CONTROL,
            Spelling(b"ObservedEvents", b"OE", Token::ObservedEvents),
            Spelling(b"OutOfService", b"OS", Token::OutOfService),
            Spelling(b"Oneway", b"OW", Token::Oneway),
        ],
        b'p' => &[
            REPLY,
            Spelling(b"Pending", b"PN", Token::Pending),
            Spelling(b"Priority", b"PR", Token::Priority),
            Spelling(b"Packages", b"PG", Token::Packages),
        ],
        b'r' => &[
            Spelling(b"Remote", b"R", Token::Remote),
            Spelling(b"ReceiveOnly", b"RC", Token::ReceiveOnly),
            REPLY,
            Spelling(b"Reason", b"RE", Token::Reason),
            Spelling(b"Restart", b"RS", Token::Restart),
        ],
        b's' => &[
            Spelling(b"Subtract", b"S", Token::Subtract),
            Spelling(b"Stream", b"ST", Token::Stream),
            Spelling(b"Signals", b"SG", Token::Signals),
            Spelling(b"SendReceive", b"SR", Token::SendReceive),
            Spelling(b"SendOnly", b"SO", Token::SendOnly),
            Spelling(b"ServiceChange", b"SC", Token::ServiceChange),
            Spelling(b"Services", b"SV", Token::Services),
            Spelling(b"ServiceStates", b"SI", Token::ServiceStates),
            Spelling(b"Statistics", b"SA", Token::Statistics),
        ],
        b't' => &[
            Spelling(b"Transaction", b"T", Token::Transaction),
            Spelling(b"TerminationState", b"TS", Token::TerminationState),
            Spelling(b"Topology", b"TP", Token::Topology),
            Spelling(b"Test", b"TE", Token::Test),
            RESPONSE_ACK,
        ],
        _ => &[],
    }
}

/// Whether two words of one length are the same in any case. Kept out of the search, since most tokens are sent as the
/// table has them.
#[inline(never)]
fn is_same_word(form: &[u8], word: &[u8]) -> bool
    ensures { result ≡ is_same_word word.now form.now }
{
    word.eq_ignore_ascii_case(form)
}

/// Whether a word is the form, in any case. Bytes are faster compared as they are.
fn is_form(form: &[u8], word: &[u8]) -> bool
    ensures { result ≡ is_same_word word.now form.now }
{
    word.len() == form.len() && (word == form || is_same_word(form, word))
}

/// Whether a word is one of the two, in any case.
#[tactic(auto, unfolding(crate::specs::Tokens::is_spelling))]
fn is_either(long: &[u8], short: &[u8], word: &[u8]) -> bool
    ensures { result ≡ is_spelling long.now short.now word.now }
{
    is_form(long, word) || is_form(short, word)
}

#[tactic(auto, using(crate::proofs::TokenLemmas::found_here, crate::proofs::TokenLemmas::not_here))]
fn find(table: &[Spelling], word: &[u8]) -> Option<Token>
    ensures { result ≡ find_token word.now (entries table.now) }
{
    for spelling in table {
        if is_either(spelling.0, spelling.1, word) {
            return Some(spelling.2);
        }
    }
    None
}

/// The token of a long form that is sent often, as the table has it: it is recognized by the word's length and its
/// bytes.
fn often_long(word: &[u8]) -> Option<Token>
    ensures { IfSome result (λ token. token_of word.now ≡ Some token) }
{
    match word {
        b"Add" => Some(Token::Add),
        b"AuditValue" => Some(Token::AuditValue),
        b"Context" => Some(Token::Context),
        b"Events" => Some(Token::Events),
        b"Local" => Some(Token::Local),
        b"LocalControl" => Some(Token::LocalControl),
        b"Media" => Some(Token::Media),
        b"Mode" => Some(Token::Mode),
        b"Modify" => Some(Token::Modify),
        b"Remote" => Some(Token::Remote),
        b"Signals" => Some(Token::Signals),
        b"Stream" => Some(Token::Stream),
        b"Subtract" => Some(Token::Subtract),
        b"Transaction" => Some(Token::Transaction),
        _ => None,
    }
}

/// The token of a short form that is sent often, as the table has it.
#[tactic(auto, unfolding(crate::specs::Tokens::token_of, crate::specs::Tokens::is_spelling))]
fn often_short(word: &[u8]) -> Option<Token>
    ensures { IfSome result (λ token. token_of word.now ≡ Some token) }
{
    match word {
        b"A" => Some(Token::Add),
        b"AV" => Some(Token::AuditValue),
        b"C" => Some(Token::Context),
        b"E" => Some(Token::Events),
        b"L" => Some(Token::Local),
        b"O" => Some(Token::LocalControl),
        b"M" => Some(Token::Media),
        b"MO" => Some(Token::Mode),
        b"MF" => Some(Token::Modify),
        b"R" => Some(Token::Remote),
        b"SG" => Some(Token::Signals),
        b"ST" => Some(Token::Stream),
        b"S" => Some(Token::Subtract),
        b"T" => Some(Token::Transaction),
        _ => None,
    }
}

/// Whether the form is the word that comes next.
#[inline(always)]
fn is_next(text: &[u8], form: &[u8]) -> bool
    requires { IsRun is_safe form.now }
    ensures { OnTrue result ((take (length form.now) text.now ≡ form.now) × (run_len is_safe text.now ≡ length form.now)) }
{
    if text.len() < form.len() {
        return false;
    }
    for (i, b) in form.iter().enumerate() {
        if text[i] != *b {
            return false;
        }
    }
    match &text[form.len()..] {
        [b, ..] => !is_safe(*b),
        [] => true,
    }
}

/// The token and the length of its form, where that is the word that comes next.
#[inline(always)]
fn recognized(text: &[u8], form: &[u8], token: Token) -> Option<(Token, usize)>
    requires { IsForm token form.now }
    ensures { IfSome result (λ r. IsNext r.0 r.1 text.now) }
{
    if is_next(text, form) {
        Some((token, form.len()))
    } else {
        None
    }
}

/// The same of either form.
#[inline(always)]
fn recognized_by_either(
    text: &[u8],
    long: &[u8],
    short: &[u8],
    token: Token,
) -> Option<(Token, usize)>
    requires long { IsForm token long.now }
    requires short { IsForm token short.now }
    ensures { IfSome result (λ r. IsNext r.0 r.1 text.now) }
{
    match recognized(text, long, token) {
        Some(found) => Some(found),
        None => recognized(text, short, token),
    }
}

/// The token of the word that comes next, and the word's length, where it is one that is sent often and stands there as
/// the table has it. No other byte is looked at.
#[inline(always)]
#[tactic(auto, unfolding(crate::specs::Tokens::token_of, crate::specs::Tokens::is_spelling))]
pub fn often_next(text: &[u8]) -> Option<(Token, usize)>
    ensures { IfSome result (λ r. IsNext r.0 r.1 text.now) }
{
    let [first, ..] = text else {
        return None;
    };
    match *first {
        b'A' => match recognized_by_either(text, b"Add", b"A", Token::Add) {
            Some(found) => Some(found),
            None => recognized_by_either(text, b"AuditValue", b"AV", Token::AuditValue),
        },
        b'C' => recognized_by_either(text, b"Context", b"C", Token::Context),
        b'E' => recognized_by_either(text, b"Events", b"E", Token::Events),
        b'L' => match recognized_by_either(text, b"Local", b"L", Token::Local) {
            Some(found) => Some(found),
            None => recognized(text, b"LocalControl", Token::LocalControl),
        },
        b'M' => match recognized_by_either(text, b"Media", b"M", Token::Media) {
            Some(found) => Some(found),
            None => recognized_by_either(text, b"Modify", b"MF", Token::Modify),
        },
        b'O' => recognized(text, b"O", Token::LocalControl),
        b'R' => recognized_by_either(text, b"Remote", b"R", Token::Remote),
        b'S' => match recognized_by_either(text, b"Stream", b"ST", Token::Stream) {
            Some(found) => Some(found),
            None => match recognized_by_either(text, b"Subtract", b"S", Token::Subtract) {
                Some(found) => Some(found),
                None => recognized_by_either(text, b"Signals", b"SG", Token::Signals),
            },
        },
        b'T' => recognized_by_either(text, b"Transaction", b"T", Token::Transaction),
        _ => None,
    }
}

/// The token that a word is. It is compared with nine tokens at most, those in its first letter. Kept out of what finds
/// the tokens that are sent often.
#[inline(never)]
#[tactic(auto, using(crate::proofs::TokenInitials::among, crate::proofs::TokenInitials::none_empty))]
pub fn in_table(word: &[u8]) -> Option<Token>
    ensures { result ≡ token_of word.now }
{
    let [first, ..] = word else {
        return None;
    };
    find(tokens_in(first.to_ascii_lowercase()), word)
}

/// The token that a word is, in its long or its short form, in any case. What is sent often, as the table has it, is
/// recognized by its length and its bytes; any other word is compared with nine tokens at most, those in its first
/// letter.
pub fn token_of(word: &[u8]) -> Option<Token>
    ensures { result ≡ token_of word.now }
{
    if let Some(token) = often_long(word) {
        return Some(token);
    }
    if let Some(token) = often_short(word) {
        return Some(token);
    }
    in_table(word)
}
