// A checksum of bytes and their order.
ghost use Rattle.std.specs.Prelude.{◌≡◌, fold};
ghost use Rattle.workload.specs.Checksum.{empty, with_byte, checksum};

// How many bytes, the sum of them, and the sum of what that was after each byte. All three wrap.
#[derive(Clone, Copy)]
pub struct Sum {
    pub bytes: u64,
    pub plain: u64,
    pub weighed: u64,
}

impl Sum {
    pub fn new() -> Self
        ensures { result ≡ empty }
    {
        Self {
            bytes: 0,
            plain: 0,
            weighed: 0,
        }
    }

    fn with_byte(self, b: u8) -> Self
        ensures { result ≡ with_byte self b }
    {
        let plain = self.plain.wrapping_add(u64::from(b));
        Self {
            bytes: self.bytes.wrapping_add(1),
            plain,
            weighed: self.weighed.wrapping_add(plain),
        }
    }

    // Some bytes more.
    pub fn with(self, bytes: &[u8]) -> Self
        ensures { result ≡ fold with_byte self bytes.now }
    {
        bytes.iter().fold(self, |sum, b| sum.with_byte(*b))
    }
}

// The weighed sum of bytes alone.
pub fn checksum(bytes: &[u8]) -> u64
    ensures { result ≡ checksum bytes.now }
{
    Sum::new().with(bytes).weighed
}
