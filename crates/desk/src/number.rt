// Numbers in decimal digits.
ghost use Rattle.std.specs.Prelude.{◌≡◌, min};
ghost use Rattle.desk.specs.Numbers.{all_digits, value, number};

// Why a word is not the number that is wanted.
#[derive(Clone, Copy)]
pub enum Wrong {
    // it is empty, or has a byte that is not a digit
    Form,
    // it is above the limit
    Large,
}

fn all_digits(word: &[u8]) -> bool
    ensures { result ≡ all_digits word.now }
{
    word.iter().all(|byte| byte.is_ascii_digit())
}

// The value of digits, or the largest number where that is larger.
fn value_of(word: &[u8]) -> u64
    ensures { result ≡ min (value word.now) u64.MAX }
{
    word.iter().fold(0, |total: u64, byte| {
        let digit = byte.saturating_sub(b'0');
        total.saturating_mul(10).saturating_add(u64::from(digit))
    })
}

// The number that a word gives, where it is at most the limit.
pub fn parse_number(word: &[u8], limit: u32) -> Result<u32, Wrong>
    ensures { result ≡ number word.now limit }
{
    if word.is_empty() || !all_digits(word) {
        return Err(Wrong::Form);
    }
    let value = value_of(word);
    if value > u64::from(limit) {
        return Err(Wrong::Large);
    }
    Ok(value as u32)
}
