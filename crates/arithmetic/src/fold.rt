// The check sum: FNV-1a, 64 bits. A state goes in by value, and the state after some bytes comes out.
ghost use Rattle.std.specs.Prelude.{◌≡◌, [], ◌∷◌};
ghost use Rattle.arithmetic.specs.Fold.{low_bytes, empty_hash, absorbed};

const PRIME: u64 = 0x100000001b3;

// The state of a check sum.
#[derive(Clone, Copy)]
pub struct StateHash {
    pub state: u64,
}

impl StateHash {
    // The state before any byte.
    pub fn new() -> StateHash
        ensures { result ≡ empty_hash }
    {
        StateHash {
            state: 0xcbf29ce484222325,
        }
    }

    // The state after one byte more.
    #[tactic(auto, unfolding(crate::specs::Fold::absorbed, crate::specs::Fold::fold_bytes, crate::specs::Fold::fnv_byte))]
    pub fn absorb_byte(self, b: u8) -> StateHash
        ensures { result ≡ absorbed self (b ∷ []) }
    {
        StateHash {
            state: (self.state ^ u64::from(b)).wrapping_mul(PRIME),
        }
    }

    // The state after the bytes of s, front first.
    pub fn absorb_bytes(self, s: &[u8]) -> StateHash
        ensures { result ≡ absorbed self s.now }
    {
        let mut hash = self;
        for b in s {
            hash = hash.absorb_byte(*b);
        }
        hash
    }

    // The state after the four bytes of x, lowest first.
    // Kept: a method for each width, of a line, since no trait of the library gives the bytes of a number of any width.
    pub fn absorb_u32(self, x: u32) -> StateHash
        ensures { result ≡ absorbed self (low_bytes 4 x) }
    {
        self.absorb_bytes(&x.to_le_bytes())
    }

    // The state after the eight bytes of x, lowest first.
    pub fn absorb_u64(self, x: u64) -> StateHash
        ensures { result ≡ absorbed self (low_bytes 8 x) }
    {
        self.absorb_bytes(&x.to_le_bytes())
    }

    // The check sum of what was absorbed.
    pub fn finish(self) -> u64
        ensures { result ≡ self.state }
    {
        self.state
    }
}
