#![tactic(auto)]

// A reader over a lent MACK section that counts used bits (01, "MACK"): a struct that holds the section and the count, and thin functions
// over it. Each takes it apart and calls a function on the section and the numbers.
// Public calls, on a section and numbers:
//   take_field    a field: its tag, and its PRN, ADKD and IOD
//   take_block    a block's key and spare bits
//   take_macseq   MACSEQ
ghost use Rattle.std.specs.Prelude.{◌≡◌, ◌+◌, ◌*◌, ◌≤◌};
ghost use Rattle.rules.specs.Bits.{bits, bytes_at};
ghost use Rattle.mack_reader.specs.Read.{after, taken, Left, key_taken, KeyLeft, field_taken, FieldLeft, block_taken, BlockLeft};

// A field taken off: its tag, its PRN, ADKD and IOD, and how many bits are then used.
#[derive(Clone, Copy)]
pub struct Field {
    pub tag: u64,
    pub info: u64,
    pub used: usize,
}

// What follows the fields of a block, taken off: the key in the first bytes of 32, the spare bits as a number, and how many bits are then
// used.
#[derive(Clone, Copy)]
pub struct Block {
    pub key: [u8; 32],
    pub spare: u64,
    pub used: usize,
}

// The field after `used` bits: a tag of ms bits, then 16 bits.
pub fn take_field(section: &[u8; 60], used: usize, ms: usize) -> Field
    requires { FieldLeft used ms }
    ensures { result ≡ field_taken section.now used ms }
{
    let tag = Reader::over(section, used).take(ms);
    let info = tag.next.take(16);
    Field {
        tag: tag.value,
        info: info.value,
        used: info.next.used,
    }
}

// The key and the spare bits of the block that begins after `used` bits: the bits of its fields are passed, then the key has `width` bytes
// and `spare` bits follow it.
pub fn take_block(
    section: &[u8; 60],
    used: usize,
    fields: usize,
    width: usize,
    spare: usize,
) -> Block
    requires { BlockLeft used fields width spare }
    ensures { result ≡ block_taken section.now used fields width spare }
{
    let key = Reader::over(section, used).skip(fields).take_key(width);
    let rest = key.next.take(spare);
    Block {
        key: key.key,
        spare: rest.value,
        used: rest.next.used,
    }
}

// MACSEQ: the 12 bits after tag0, which has ms bits.
pub fn take_macseq(section: &[u8; 60], ms: usize) -> u64
    requires { ms ≤ 40 }
    ensures { result ≡ bits section.now ms 12 }
{
    Reader::over(section, 0).skip(ms).take(12).value
}

// ---- the reader

// The lent section, and how many of its bits are used.
#[derive(Clone, Copy)]
struct Reader<'a> {
    section: &'a [u8; 60],
    used: usize,
}

// A number taken off, and the reader after it.
#[derive(Clone, Copy)]
struct Read<'a> {
    value: u64,
    next: Reader<'a>,
}

// A key taken off, in the first bytes of 32, and the reader after it.
#[derive(Clone, Copy)]
struct KeyRead<'a> {
    key: [u8; 32],
    next: Reader<'a>,
}

impl<'a> Reader<'a> {
    // A reader over a section, of which `used` bits are used.
    fn over(section: &'a [u8; 60], used: usize) -> Reader<'a>
        ensures { (result.section ≡ section.entry) × (result.used ≡ used) }
    {
        Reader { section, used }
    }

    // The next n bits.
    fn take(self, n: usize) -> Read<'a>
        requires { Left self n }
        ensures { result ≡ taken self.entry n }
    {
        let section = self.section;
        Read {
            value: bitfields::bits_at(section, self.used, n),
            next: self.skip(n),
        }
    }

    // Past n bits.
    fn skip(self, n: usize) -> Reader<'a>
        requires { self.used + n ≤ 480 }
        ensures { result ≡ after self.entry n }
    {
        Reader {
            used: self.used + n,
            ..self
        }
    }

    // The next n bytes, a key.
    fn take_key(self, n: usize) -> KeyRead<'a>
        requires { KeyLeft self n }
        ensures { result ≡ key_taken self.entry n }
    {
        let mut key = [0u8; 32];
        let section = self.section;
        bitfields::bytes_at(section, self.used, n, &mut key);
        KeyRead {
            key,
            next: self.skip(8 * n),
        }
    }
}
