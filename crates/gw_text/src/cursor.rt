//! A place in a text, and the scans of what stands there (RFC 3525, Annex B.2).

ghost use Rattle.std.specs.Prelude.{◌≡◌, ◌≢◌, ◌≤◌, ◌<◌, ℕ, List, [], ◌∷◌, ◌++◌, true, false, length, take, drop, Some, None, Err, MatchBool, IfOk, IfErr, IsTrue, ◌↔◌};
ghost use Rattle.std.specs.Bool.{OnTrue, OnFalse};
ghost use Rattle.gw_base.specs.Bytes.{is_digit};
ghost use Rattle.gw_text.specs.Lexical.{is_safe, is_solid, right_brace};
ghost use Rattle.gw_text.specs.Space.{IsSpace, IsSep};
ghost use Rattle.gw_text.specs.SpaceScan.{skip};
ghost use Rattle.gw_text.specs.Runs.{begins, first, is_byte};
ghost use Rattle.gw_text.specs.Forms.{IsWord, IsSolid, IsSomeRun, IsNumber, IsUint32, HasNoNumber, IsSign, IsInAnyCase};
ghost use Rattle.gw_text.specs.Octets.{IsOctets, IsOctetsOf};
ghost use Rattle.gw_text.specs.OctetsScan.{octets_at};
ghost use Rattle.gw_text.specs.Quoted.{IsQuoted};
ghost use Rattle.gw_text.specs.QuotedScan.{quoted_at};
ghost use Rattle.gw_text.specs.Bracket.{IsBracket, is_run_byte};
ghost use Rattle.gw_text.specs.BracketScan.{run_at, bracket_at};
ghost use Rattle.gw_text.specs.Group.{IsGroup, IsTooDeep, HasNoGroup};
ghost use Rattle.gw_text.specs.GroupScan.{balanced_at};
ghost use Rattle.gw_text.specs.Longest.{IsLongest, IsAhead};
ghost use Rattle.gw_text.specs.Sign.{byte_at, sign_at, prefix_at};
ghost use Rattle.gw_text.specs.Tokens.{token_of};
ghost use Rattle.gw_text.specs.Scans.{Takes, lwsp_at, sep_at, word_at, solid_at, number_within, uint32_at, uint32_digits, uint32_max};

use crate::bracket::{bracket_len, run_len};
use crate::class::is_solid;
use crate::fault::ScanFault;
use crate::group::group_len;
use crate::lengths::{digits_len, solid_len, word_len};
use crate::number::number_of;
use crate::octets::{octets_ends, quoted_len, trimmed};
use crate::space::{is_unspaced, space_len};
use crate::token::{Token, in_table, often_next};
use std::marker::Model;

/// A 32-bit number in a text.
#[derive(Clone, Copy)]
pub struct Uint32<'a> {
    /// Its digits.
    pub span: &'a [u8],
    /// What they write.
    pub value: u32,
}

/// A place in a text. Contracts see it as the bytes that are left.
#[derive(Drop)]
pub struct Cursor<'a> {
    rest: &'a [u8],
}

impl<'a> Model for Cursor<'a> {
    ghost use Rattle.std.specs.Prelude.{ℕ, List};

    ghost Value = { List ℕ };

    ghost view = { λ a. a.rest.now };
}

impl<'a> Cursor<'a> {
    /// The start of a text.
    pub fn new(text: &'a [u8]) -> Cursor<'a>
        ensures { result ≡ text.now }
    {
        Cursor { rest: text }
    }

    /// The same place, once more.
    pub fn again(&self) -> Cursor<'a>
        ensures { result ≡ self.now }
    {
        Cursor { rest: self.rest }
    }

    /// How many bytes are left.
    pub fn left(&self) -> usize
        ensures { result ≡ length self.now }
    {
        self.rest.len()
    }

    /// Goes on until so many bytes are left: where another cursor over the same text came.
    pub fn leave(&mut self, left: usize)
        requires { left ≤ length self.old }
        ensures ahead { IsAhead self.old self.new }
        ensures left { length self.new ≡ left }
    {
        let gone = self.rest.len() - left;
        self.take(gone);
    }

    /// Whether nothing is left.
    pub fn is_empty(&self) -> bool
        ensures { IsTrue result ↔ (self.now ≡ []) }
    {
        self.rest.is_empty()
    }

    /// The byte that comes next, if there is one. It is not taken.
    pub fn peek(&self) -> Option<u8>
        ensures { result ≡ first self.now }
    {
        match self.rest {
            [b, ..] => Some(*b),
            [] => None,
        }
    }

    /// Whether the byte comes next. It is not taken.
    pub fn is_at(&self, b: u8) -> bool
        ensures { result ≡ begins (is_byte b) self.now }
    {
        match self.rest {
            [c, ..] => *c == b,
            [] => false,
        }
    }

    /// Whether the byte comes next behind the white space. Nothing is taken.
    #[tactic(auto, unfolding(crate::specs::SpaceScan::skip))]
    pub fn is_ahead(&self, b: u8) -> bool
        ensures { result ≡ begins (is_byte b) (skip self.now) }
    {
        let len = space_len(self.rest);
        match &self.rest[len..] {
            [c, ..] => *c == b,
            [] => false,
        }
    }

    /// Takes the longest white space, which may be empty.
    pub fn lwsp(&mut self) -> &'a [u8]
        ensures exact { (result.now, self.new) ≡ lwsp_at self.old }
        ensures span { IsLongest IsSpace self.old result.now self.new }
    {
        let len = space_len(self.rest);
        self.take(len)
    }

    /// Takes the longest white space of a byte at least.
    ///
    /// # Errors
    ///
    /// `Unexpected` where no white space comes next.
    #[tactic(auto, using(crate::proofs::Scanned::sep_missing), unfolding(crate::specs::Scans::sep_at))]
    pub fn sep(&mut self) -> Result<&'a [u8], ScanFault>
        ensures exact { Takes (λ span. span.now) self.old result self.new (sep_at self.old) }
        ensures span { IfOk result (λ span. IsLongest IsSep self.old span.now self.new) }
        ensures fault { IfErr result (λ e. (e ≡ ScanFault.Unexpected) × ((before after : List ℕ) → self.old ≡ before ++ after → ¬ IsSep before)) }
    {
        let space = space_len(self.rest);
        if space == 0 {
            return Err(ScanFault::Unexpected);
        }
        Ok(self.take(space))
    }

    /// Takes a word: the longest run of safe bytes.
    ///
    /// # Errors
    ///
    /// `Unexpected` where no safe byte comes next.
    #[tactic(auto, unfolding(crate::specs::Scans::word_at))]
    pub fn word(&mut self) -> Result<&'a [u8], ScanFault>
        ensures exact { Takes (λ span. span.now) self.old result self.new (word_at self.old) }
        ensures span { IfOk result (λ span. IsLongest IsWord self.old span.now self.new) }
        ensures fault { IfErr result (λ e. (e ≡ ScanFault.Unexpected) × (begins is_safe self.old ≡ false)) }
    {
        let len = word_len(self.rest);
        if len == 0 {
            return Err(ScanFault::Unexpected);
        }
        Ok(self.take(len))
    }

    /// Takes a word as `word` does, and answers which token it is, if it is one. What is sent often, as the table has
    /// it, is recognized by its bytes alone.
    ///
    /// # Errors
    ///
    /// `Unexpected` where no safe byte comes next.
    #[inline(always)]
    #[tactic(auto, using(crate::proofs::TokenLemmas::next_within), unfolding(crate::specs::Scans::word_at))]
    pub fn named(&mut self) -> Result<(&'a [u8], Option<Token>), ScanFault>
        ensures exact { Takes (λ r. r.0.now) self.old result self.new (word_at self.old) }
        ensures token { IfOk result (λ r. r.1 ≡ token_of r.0.now) }
    {
        if let Some((token, len)) = often_next(self.rest) {
            return Ok((self.take(len), Some(token)));
        }
        let word = self.word()?;
        Ok((word, in_table(word)))
    }

    /// Takes the bytes before the next white space.
    ///
    /// # Errors
    ///
    /// `Unexpected` where white space comes next, or nothing is left.
    #[tactic(auto, unfolding(crate::specs::Scans::solid_at))]
    pub fn solid(&mut self) -> Result<&'a [u8], ScanFault>
        ensures exact { Takes (λ span. span.now) self.old result self.new (solid_at self.old) }
        ensures span { IfOk result (λ span. IsLongest IsSolid self.old span.now self.new) }
        ensures fault { IfErr result (λ e. (e ≡ ScanFault.Unexpected) × (begins is_solid self.old ≡ false)) }
    {
        let len = solid_len(self.rest);
        if len == 0 {
            return Err(ScanFault::Unexpected);
        }
        Ok(self.take(len))
    }

    /// Takes a 32-bit number: the longest run of digits.
    ///
    /// # Errors
    ///
    /// `Unexpected` where no digit comes next; `Overflow` where the digits are more than ten or write more than
    /// 4,294,967,295.
    pub fn uint32(&mut self) -> Result<Uint32<'a>, ScanFault>
        ensures exact { Takes (λ n. n.value) self.old result self.new (uint32_at self.old) }
        ensures span { IfOk result (λ n. IsLongest (IsSomeRun is_digit) self.old n.span.now self.new × IsUint32 n.value n.span.now) }
        ensures fault { IfErr result (λ e. HasNoNumber uint32_digits uint32_max e self.old) }
    {
        self.number(10, u32::MAX)
    }

    /// Takes a number of at most so many digits, and at most `max`: the longest run of digits.
    ///
    /// # Errors
    ///
    /// `Unexpected` where no digit comes next; `Overflow` where the digits are more, or write more than `max`.
    #[tactic(auto, using(crate::proofs::RunLemmas::run_is), unfolding(crate::specs::Scans::number_within))]
    pub fn number(&mut self, digits: usize, max: u32) -> Result<Uint32<'a>, ScanFault>
        ensures exact { Takes (λ n. n.value) self.old result self.new (number_within digits max self.old) }
        ensures span { IfOk result (λ n. IsLongest (IsSomeRun is_digit) self.old n.span.now self.new × IsNumber digits max n.value n.span.now) }
        ensures fault { IfErr result (λ e. HasNoNumber digits max e self.old) }
    {
        let len = digits_len(self.rest);
        if len == 0 {
            return Err(ScanFault::Unexpected);
        }
        if len > digits {
            return Err(ScanFault::Overflow);
        }
        let Some(value) = number_of(&self.rest[..len]) else {
            return Err(ScanFault::Overflow);
        };
        if value > max {
            return Err(ScanFault::Overflow);
        }
        Ok(Uint32 {
            span: self.take(len),
            value,
        })
    }

    /// Takes octets, from behind the brace that begins them up to the one that closes them, which is left. The span
    /// is the text without the white space at its ends (spaces, tabs, CR and LF, no comments); where a `\` stands
    /// before that at the end, its first byte is kept.
    ///
    /// # Errors
    ///
    /// `Unexpected` where no closing brace comes, or a byte 0 before it.
    #[tactic(auto, unfolding(crate::specs::OctetsScan::octets_at))]
    pub fn octets(&mut self) -> Result<&'a [u8], ScanFault>
        ensures exact { Takes (λ span. span.now) self.old result self.new (octets_at self.old) }
        ensures span { IfOk result (λ span. (body : List ℕ) × (self.old ≡ body ++ self.new) × (begins (is_byte right_brace) self.new ≡ true) × IsOctetsOf span.now body) }
        ensures fault { IfErr result (λ e. (e ≡ ScanFault.Unexpected) × ((body rest : List ℕ) → self.old ≡ body ++ right_brace ∷ rest → ¬ IsOctets body)) }
    {
        let Some((len, keep)) = octets_ends(self.rest) else {
            return Err(ScanFault::Unexpected);
        };
        Ok(trimmed(&self.take(len)[..keep]))
    }

    /// Takes a quoted text, its quotes among it.
    ///
    /// # Errors
    ///
    /// `Unexpected` where no quoted text comes next.
    #[tactic(auto, unfolding(crate::specs::QuotedScan::quoted_at))]
    pub fn quoted(&mut self) -> Result<&'a [u8], ScanFault>
        ensures exact { Takes (λ span. span.now) self.old result self.new (quoted_at self.old) }
        ensures span { IfOk result (λ span. (self.old ≡ span.now ++ self.new) × IsQuoted span.now) }
        ensures fault { IfErr result (λ e. (e ≡ ScanFault.Unexpected) × ((before after : List ℕ) → self.old ≡ before ++ after → ¬ IsQuoted before)) }
    {
        let Some(len) = quoted_len(self.rest) else {
            return Err(ScanFault::Unexpected);
        };
        Ok(self.take(len))
    }

    /// Takes a run: safe bytes and `[ ] : < > #`.
    ///
    /// # Errors
    ///
    /// `Unexpected` where no such byte comes next.
    #[tactic(auto, unfolding(crate::specs::BracketScan::run_at))]
    pub fn run(&mut self) -> Result<&'a [u8], ScanFault>
        ensures exact { Takes (λ span. span.now) self.old result self.new (run_at self.old) }
        ensures span { IfOk result (λ span. IsLongest (IsSomeRun is_run_byte) self.old span.now self.new) }
        ensures fault { IfErr result (λ e. (e ≡ ScanFault.Unexpected) × (begins is_run_byte self.old ≡ false)) }
    {
        let len = run_len(self.rest);
        if len == 0 {
            return Err(ScanFault::Unexpected);
        }
        Ok(self.take(len))
    }

    /// Takes a bracket: `[`, one or more of safe bytes, `,`, `:`, quoted texts and white space, and `]`.
    ///
    /// # Errors
    ///
    /// `Unexpected` where no bracket comes next.
    #[tactic(auto, using(crate::proofs::BracketLaws::no_bracket))]
    pub fn bracket(&mut self) -> Result<&'a [u8], ScanFault>
        ensures exact { Takes (λ span. span.now) self.old result self.new (bracket_at self.old) }
        ensures span { IfOk result (λ span. (self.old ≡ span.now ++ self.new) × IsBracket span.now) }
        ensures fault { IfErr result (λ e. (e ≡ ScanFault.Unexpected) × ((before after : List ℕ) → self.old ≡ before ++ after → ¬ IsBracket before)) }
    {
        let Some(len) = bracket_len(self.rest) else {
            return Err(ScanFault::Unexpected);
        };
        Ok(self.take(len))
    }

    /// Takes a group: from its `{` to the matching `}`, both among it, with braces at most `depth` deep, its own
    /// counted. Quoted texts, comments and octets are passed whole. A depth is at most 16 in this profile: it is 8 in a
    /// request and 16 in a reply.
    ///
    /// # Errors
    ///
    /// `TooDeep` at a brace that lies deeper, whatever follows it; `Unexpected` where there is no group for another
    /// reason.
    #[tactic(auto, using(crate::proofs::GroupSound::group_scans), unfolding(crate::specs::GroupScan::balanced_at))]
    pub fn balanced(&mut self, depth: u32) -> Result<&'a [u8], ScanFault>
        requires { depth ≤ 16 }
        ensures exact { Takes (λ span. span.now) self.old result self.new (balanced_at depth self.old) }
        ensures span { IfOk result (λ span. (self.old ≡ span.now ++ self.new) × IsGroup depth span.now) }
        ensures fault { IfErr result (λ e. HasNoGroup depth e self.old) }
        ensures deep { IsTooDeep depth self.old → result ≡ Err ScanFault.TooDeep }
    {
        let len = group_len(depth, self.rest)?;
        Ok(self.take(len))
    }

    /// Takes the byte, if it comes next.
    #[tactic(auto, unfolding(crate::specs::Sign::byte_at))]
    pub fn byte(&mut self, b: u8) -> bool
        ensures exact { MatchBool result (byte_at b self.old ≡ Some self.new) ((byte_at b self.old ≡ None) × (self.new ≡ self.old)) }
        ensures cases { MatchBool result (self.old ≡ b ∷ self.new) (begins (is_byte b) self.old ≡ false) }
        ensures shorter { OnTrue result (length self.new < length self.old) }
    {
        match self.rest {
            [c, rest @ ..] if *c == b => {
                self.rest = rest;
                true
            }
            _ => false,
        }
    }

    /// Takes the sign, with the longest white space on both sides of it, if it comes next. A sign is no byte with
    /// which white space begins.
    #[tactic(auto, using(crate::proofs::Signs::sign_took, crate::proofs::Signs::sign_missed))]
    pub fn sign(&mut self, b: u8) -> bool
        ensures exact { MatchBool result (sign_at b self.old ≡ Some self.new) ((sign_at b self.old ≡ None) × (self.new ≡ self.old)) }
        ensures took { OnTrue result (is_solid b ≡ true → (span : List ℕ) × IsLongest (IsSign b) self.old span self.new) }
        ensures missing { OnFalse result (is_solid b ≡ true → (before after : List ℕ) → self.old ≡ before ++ after → ¬ IsSign b before) }
        ensures shorter { OnTrue result (length self.new < length self.old) }
    {
        self.take_sign(b)
    }

    /// Takes these bytes, in any case, if they come next.
    #[tactic(auto, unfolding(crate::specs::Sign::prefix_at))]
    pub fn prefix(&mut self, bytes: &[u8]) -> bool
        ensures exact { MatchBool result (prefix_at bytes.now self.old ≡ Some self.new) ((prefix_at bytes.now self.old ≡ None) × (self.new ≡ self.old)) }
        ensures took { OnTrue result ((span : List ℕ) × (self.old ≡ span ++ self.new) × IsInAnyCase bytes.now span) }
        ensures missing { OnFalse result ((before after : List ℕ) → self.old ≡ before ++ after → ¬ IsInAnyCase bytes.now before) }
    {
        if self.rest.len() < bytes.len() {
            return false;
        }
        let (front, rest) = self.rest.split_at(bytes.len());
        if !front.eq_ignore_ascii_case(bytes) {
            return false;
        }
        self.rest = rest;
        true
    }

    /// Takes these bytes, letter for letter, if they come next.
    #[inline(always)]
    pub fn exact_prefix(&mut self, bytes: &[u8]) -> bool
        ensures { MatchBool result (self.old ≡ bytes.now ++ self.new) ((self.new ≡ self.old) × ((rest : List ℕ) → self.old ≢ bytes.now ++ rest)) }
    {
        match self.rest.strip_prefix(bytes) {
            Some(rest) => {
                self.rest = rest;
                true
            }
            None => false,
        }
    }

    /// Takes the sign as `sign` does. Mostly there is no white space on either side of it, which
    /// is recognized by two bytes; that another byte comes next is recognized by that one.
    #[tactic(auto, unfolding(crate::specs::Sign::sign_at, crate::specs::SpaceScan::skip, crate::specs::SpaceScan::space_len))]
    fn take_sign(&mut self, b: u8) -> bool
        ensures exact { MatchBool result (sign_at b self.old ≡ Some self.new) ((sign_at b self.old ≡ None) × (self.new ≡ self.old)) }
        ensures shorter { OnTrue result (length self.new < length self.old) }
    {
        match self.rest {
            [c, rest @ ..] if *c == b && is_solid(b) && is_unspaced(rest) => {
                self.rest = rest;
                true
            }
            [c, ..] if *c != b && is_solid(*c) => false,
            _ => self.take_spaced_sign(b),
        }
    }

    // Kept out of the scans, since most signs have no white space beside them.
    #[inline(never)]
    #[tactic(auto, unfolding(crate::specs::Sign::sign_at, crate::specs::SpaceScan::skip))]
    fn take_spaced_sign(&mut self, b: u8) -> bool
        ensures exact { MatchBool result (sign_at b self.old ≡ Some self.new) ((sign_at b self.old ≡ None) × (self.new ≡ self.old)) }
        ensures shorter { OnTrue result (length self.new < length self.old) }
    {
        let len = space_len(self.rest);
        match &self.rest[len..] {
            [c, rest @ ..] if *c == b => {
                let after = space_len(rest);
                self.rest = &rest[after..];
                true
            }
            _ => false,
        }
    }

    fn take(&mut self, len: usize) -> &'a [u8]
        requires { len ≤ length self.old }
        ensures span { result.now ≡ take len self.old }
        ensures rest { self.new ≡ drop len self.old }
    {
        let (span, rest) = self.rest.split_at(len);
        self.rest = rest;
        span
    }
}
