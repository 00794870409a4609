//! Laws over the definitions: each is the contract of a function that does nothing. That what is scanned is what the
//! grammar has is no law of its own: each scan of `Cursor` promises it, as `span`.

ghost use Rattle.std.specs.Prelude.{◌≡◌, ℕ, List, ◌++◌};
ghost use Rattle.gw_text.specs.Octets.{IsOctetsOf};
ghost use Rattle.gw_text.specs.Group.{IsGroup};
ghost use Rattle.gw_text.specs.Tokens.{table, AllReadBack};

/// Both forms of each token, in any case, are read as that token: no two tokens have a spelling in common.
pub fn tokens_read_back()
    ensures { AllReadBack table }
{}

/// A text has one group at most at its front, however it goes on; and of octets one text is kept.
pub fn spans_are_one()
    ensures group { (depth : ℕ) (text g h rest more : List ℕ) → text ≡ g ++ rest → text ≡ h ++ more → IsGroup depth g → IsGroup depth h → g ≡ h }
    ensures octets { (body span other : List ℕ) → IsOctetsOf span body → IsOctetsOf other body → span ≡ other }
{}
