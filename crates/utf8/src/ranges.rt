// Which bytes are a letter, by their ranges.
ghost use Rattle.std.specs.Prelude.{◌≡◌, true};
ghost use Rattle.utf8.specs.Letters.{is_letter};
ghost use Rattle.utf8.specs.Ranges.{follows, of_three, of_two, three, two};

// Whether it is the number of a letter: of 16 bits, and no surrogate.
pub fn is_letter(letter: u32) -> bool
    ensures { result ≡ is_letter letter }
{
    letter < 0xd800 || (letter >= 0xe000 && letter < 0x10000)
}

// Whether it stands behind the first byte of a letter.
pub fn follows(byte: u8) -> bool
    ensures { result ≡ follows byte }
{
    byte >= 0x80 && byte <= 0xbf
}

// Whether two bytes are a letter.
#[tactic(auto, unfolding(crate::specs::Ranges::two))]
pub(crate) fn two(first: u8, second: u8) -> bool
    ensures { result ≡ two first second }
{
    first >= 0xc2 && first <= 0xdf && follows(second)
}

// Whether three are. With E0 first, two bytes would do for a second one below A0; with ED, those from A0 on make a surrogate.
#[tactic(auto, unfolding(crate::specs::Ranges::three))]
pub(crate) fn three(first: u8, second: u8, third: u8) -> bool
    ensures { result ≡ three first second third }
{
    first >= 0xe0
        && first <= 0xef
        && follows(second)
        && follows(third)
        && (first != 0xe0 || second >= 0xa0)
        && (first != 0xed || second <= 0x9f)
}

// The letter that two bytes are.
#[tactic(auto, using(crate::proofs::Numbers::two_says))]
pub(crate) fn of_two(first: u8, second: u8) -> u32
    requires { two first second ≡ true }
    ensures { result ≡ of_two first second }
{
    (first as u32 - 0xc0) * 64 + (second as u32 - 0x80)
}

// The letter that three bytes are.
#[tactic(auto, using(crate::proofs::Numbers::three_says))]
pub(crate) fn of_three(first: u8, second: u8, third: u8) -> u32
    requires { three first second third ≡ true }
    ensures { result ≡ of_three first second third }
{
    (first as u32 - 0xe0) * 4096 + ((second as u32 - 0x80) * 64 + (third as u32 - 0x80))
}
