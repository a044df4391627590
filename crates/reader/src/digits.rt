// Fields of decimal digits.
ghost use Rattle.std.specs.Prelude.{◌≡◌};
ghost use Rattle.reader.specs.Fields.{number_of};

// A field of digits, borrowed from the input.
#[derive(Clone, Copy, Debug)]
pub struct Digits<'a> {
    pub(crate) bytes: &'a [u8],
}

impl Digits<'_> {
    // No field is longer, so that every value fits 32 bits.
    pub const LONGEST: usize = 9;

    // The number that the digits write.
    pub fn value(&self) -> u32
        ensures value { result ≡ number_of self.now.bytes.now }
    {
        if self.bytes.len() > Self::LONGEST {
            return 0;
        }
        let mut n: u32 = 0;
        for b in self.bytes {
            if !b.is_ascii_digit() {
                return 0;
            }
            n = n * 10 + u32::from(*b - b'0');
        }
        n
    }
}
