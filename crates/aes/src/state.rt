// A state as four words, one for each column, with the byte in row 0 lowest.
ghost use Rattle.std.specs.Prelude.{◌≡◌, ℕ, length};
ghost use Rattle.std.specs.Simd.{first_chunks};
ghost use Rattle.aes.specs.Rounds.{add_round_key};
ghost use Rattle.aes.specs.State.{xor_bytes};
ghost use Rattle.aes.specs.Words.{diagonal, state_bytes, turned, word_bytes};

#[derive(Clone, Copy)]
pub struct State {
    pub c0: u32,
    pub c1: u32,
    pub c2: u32,
    pub c3: u32,
}

// The sum of four columns, each turned one row further down.
pub fn turned_sum(w: u32, x: u32, y: u32, z: u32) -> u32
    ensures { word_bytes result ≡ xor_bytes (xor_bytes (xor_bytes (word_bytes w) (turned 1 (word_bytes x))) (turned 2 (word_bytes y))) (turned 3 (word_bytes z)) }
{
    w ^ x.rotate_left(8) ^ y.rotate_left(16) ^ z.rotate_left(24)
}

// A byte of each of four columns through a box, one row lower from column to column, and a word of the round key.
pub fn keyed_diagonal<F: Fn(u8) -> u8>(image: F, a: u32, b: u32, c: u32, d: u32, key: u32) -> u32
    requires { F.IsAlwaysCallable image }
    ensures { (h : ℕ → ℕ) → ((x y : ℕ) → F.post image x y → y ≡ h x) → word_bytes result ≡ xor_bytes (diagonal h a b c d) (word_bytes key) }
{
    let p = image(a.to_le_bytes()[0]);
    let q = image(b.to_le_bytes()[1]);
    let r = image(c.to_le_bytes()[2]);
    let s = image(d.to_le_bytes()[3]);
    u32::from_le_bytes([p, q, r, s]) ^ key
}

// The round keys of a key schedule. A slice with its length: the public calls take one, and an array would ask more.
pub fn round_keys(schedule: &[u8]) -> &[[u8; 16]; 11]
    requires { length schedule.now ≡ 176 }
    ensures { result.now ≡ first_chunks 16 11 schedule.now }
{
    let (keys, _) = schedule.as_chunks::<16>();
    keys.as_array::<11>().unwrap()
}

impl State {
    // The state of a block.
    pub fn from_bytes(block: &[u8; 16]) -> State
        ensures { state_bytes result ≡ block.now }
    {
        let [a, b, c, d, e, f, g, h, i, j, k, l, m, n, o, p] = *block;
        State {
            c0: u32::from_le_bytes([a, b, c, d]),
            c1: u32::from_le_bytes([e, f, g, h]),
            c2: u32::from_le_bytes([i, j, k, l]),
            c3: u32::from_le_bytes([m, n, o, p]),
        }
    }

    // The block of a state.
    pub fn to_bytes(self) -> [u8; 16]
        ensures { result ≡ state_bytes self }
    {
        let [a, b, c, d] = self.c0.to_le_bytes();
        let [e, f, g, h] = self.c1.to_le_bytes();
        let [i, j, k, l] = self.c2.to_le_bytes();
        let [m, n, o, p] = self.c3.to_le_bytes();
        [a, b, c, d, e, f, g, h, i, j, k, l, m, n, o, p]
    }

    // AddRoundKey.
    pub fn add_round_key(self, key: State) -> State
        ensures { state_bytes result ≡ add_round_key (state_bytes self) (state_bytes key) }
    {
        State {
            c0: self.c0 ^ key.c0,
            c1: self.c1 ^ key.c1,
            c2: self.c2 ^ key.c2,
            c3: self.c3 ^ key.c3,
        }
    }
}
