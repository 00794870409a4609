//! The number that digits write.

ghost use Rattle.std.specs.Prelude.{◌≡◌, ◌<◌, true, MatchOption};
ghost use Rattle.std.specs.List.{list_all};
ghost use Rattle.std.specs.Str.Parse.{digits_value};
ghost use Rattle.gw_base.specs.Bytes.{is_digit};
ghost use Rattle.gw_text.specs.Scans.{uint32_max};

/// The number that digits write, if it is a `u32`.
#[tactic(auto, using(crate::proofs::RunLemmas::at_byte, crate::proofs::RunLemmas::next_digit, crate::proofs::RunLemmas::number_grows))]
pub fn number_of(digits: &[u8]) -> Option<u32>
    requires { list_all is_digit digits.now ≡ true }
    ensures { MatchOption result (uint32_max < digits_value 10 digits.now) (λ n. n ≡ digits_value 10 digits.now) }
{
    let mut number: u64 = 0;
    for b in digits {
        number = number * 10 + (*b - b'0') as u64;
        if number > u32::MAX as u64 {
            return None;
        }
    }
    Some(number as u32)
}
