// The hash FNV-1a of 64 bits, over samples.
ghost use Rattle.std.specs.Prelude.{◌≡◌};
ghost use Rattle.cases.specs.Fnv.{fnv_start, fnv_byte, fnv_sample};

const START: u64 = 0xcbf2_9ce4_8422_2325;

const PRIME: u64 = 0x0000_0100_0000_01b3;

#[derive(Clone, Copy)]
pub struct Fnv {
    hash: u64,
}

fn mixed(hash: u64, byte: u8) -> u64
    ensures answer { result ≡ fnv_byte hash byte }
{
    (hash ^ u64::from(byte)).wrapping_mul(PRIME)
}

impl Fnv {
    pub fn new() -> Fnv
        ensures answer { result.hash ≡ fnv_start }
    {
        Fnv { hash: START }
    }

    // Takes in the four bytes of a sample's bits, the lowest first.
    pub fn add(&mut self, bits: u32)
        ensures after { self.new.hash ≡ fnv_sample self.old.hash bits }
    {
        let mix = |hash, byte: &u8| mixed(hash, *byte);
        self.hash = bits.to_le_bytes().iter().fold(self.hash, mix);
    }

    pub fn hash(self) -> u64
        ensures answer { result ≡ self.hash }
    {
        self.hash
    }
}
