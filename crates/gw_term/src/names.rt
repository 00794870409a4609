//! Names of properties, which are the same in any case (own to this profile, as tokens are by RFC 3525, Annex B.2).

ghost use Rattle.std.specs.Prelude.{◌≡◌};
ghost use Rattle.gw_text.specs.Tokens.{is_same_word};
ghost use Rattle.gw_term.specs.NameTags.{name_tag, with_byte};

/// Whether two names are the same in any case. Most that are the same are so in each letter.
pub(crate) fn is_same_name(name: &[u8], other: &[u8]) -> bool
    ensures { result ≡ is_same_word name.now other.now }
{
    name == other || name.eq_ignore_ascii_case(other)
}

/// What a tag is multiplied with for each byte: odd, and of 64 bits.
const FACTOR: u64 = 11_400_714_819_323_198_485;

/// How many bits its upper half is shifted down.
const CARRIED: u32 = 29;

/// The tag with a byte behind it. Its upper bits are shifted down each time, so that it is no sum of the bytes.
#[inline(always)]
fn with_byte(tag: u64, byte: u8) -> u64
    ensures { result ≡ with_byte tag byte }
{
    let new = tag.wrapping_mul(FACTOR).wrapping_add(u64::from(byte % 32));
    new ^ (new >> CARRIED)
}

/// The tag of a name, which is the same in any case. The work is linear in the name.
#[tactic(auto, unfolding(crate::specs::NameTags::name_tag))]
pub(crate) fn name_tag(name: &[u8]) -> u64
    ensures { result ≡ name_tag name.now }
{
    let mut tag = 0;
    for byte in name {
        tag = with_byte(tag, *byte);
    }
    tag
}
