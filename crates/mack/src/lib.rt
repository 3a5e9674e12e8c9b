#![tactic(auto)]

// A MACK section of 60 bytes, read by a cursor that counts used bits (01, "MACK"; 000, 4). Fields and keys are taken off in order, block by
// block, through the reader of `mack_reader`. What is read is its definition in rules/specs/Mack.antt; one proof serves every width.
// Public calls:
//   next_field, read_field   a field: the one at which the cursor stands, and by its number
//   section_start, next_key  the cursor at the first block; a block's key and spare bits
//   macseq_of                MACSEQ
//   field_place, key_place   the bits at which a field and a block's key begin
ghost use Rattle.std.specs.Prelude.{◌≡◌, ◌+◌, ◌*◌, ◌≤◌, ◌<◌};
ghost use Rattle.rules.specs.Mack as S;
ghost use Rattle.mack.specs.Layout.{FieldsFit, KeysFit, rest_bits};
ghost use Rattle.mack.specs.Read.{field_taken, field_read, block_read};

use rules::Chain;

// Bits of the section that are used.
#[derive(Clone, Copy)]
pub struct Cursor {
    pub used: usize,
}

// A field: its tag, its PRN, ADKD and IOD, and the cursor at the next field.
#[derive(Clone, Copy)]
pub struct Field {
    pub tag: u64,
    pub info: u16,
    pub next: Cursor,
}

// A block's key in the first bytes of 32, its spare bits as a number, and the cursor at the next block.
#[derive(Clone, Copy)]
pub struct Block {
    pub key: [u8; 32],
    pub spare: u64,
    pub next: Cursor,
}

// ---- fields

// Field j, at which the cursor stands. After a block's last field the key and the spare bits are passed.
pub fn next_field(c: Chain, m: &[u8; 60], k: Cursor, j: usize) -> Field
    requires { FieldsFit c × ((k.used ≡ S.field_at c j) × (j < c.nmack * c.fields)) }
    ensures { result ≡ field_read c m.now j }
{
    let fields = c.fields as usize;
    let f = take_field(c, m, k);
    if j % fields + 1 < fields {
        return f;
    }
    Field {
        next: Cursor {
            used: f.next.used + rest_bits(c),
        },
        ..f
    }
}

// Field j, by a cursor at its place.
pub fn read_field(c: Chain, m: &[u8; 60], j: usize) -> Field
    requires { FieldsFit c × (j < c.nmack * c.fields) }
    ensures { result ≡ field_read c m.now j }
{
    next_field(
        c,
        m,
        Cursor {
            used: field_place(c, j),
        },
        j,
    )
}

// The field after the bits used, by the reader.
fn take_field(c: Chain, m: &[u8; 60], k: Cursor) -> Field
    requires { (k.used + (c.ms + 16) ≤ 480) × (c.ms ≤ 40) }
    ensures { result ≡ field_taken c m.now k }
{
    let f = mack_reader::take_field(m, k.used, c.ms as usize);
    Field {
        tag: f.tag,
        info: f.info as u16,
        next: Cursor { used: f.used },
    }
}

// MACSEQ, after tag0.
#[tactic(auto, unfolding(rules::specs::Mack::macseq_of))]
pub fn macseq_of(c: Chain, m: &[u8; 60]) -> u64
    requires { c.ms ≤ 40 }
    ensures { result ≡ S.macseq_of c m.now }
{
    mack_reader::take_macseq(m, c.ms as usize)
}

// ---- keys

// The cursor at the first block of a section.
pub fn section_start() -> Cursor
    ensures { result.used ≡ 0 }
{
    Cursor { used: 0 }
}

// The key and the spare bits of block b, at whose start the cursor stands.
pub fn next_key(c: Chain, m: &[u8; 60], k: Cursor, b: u64) -> Block
    requires { KeysFit c × ((k.used ≡ S.block_at c b) × ((1 ≤ b) × (b ≤ c.nmack))) }
    ensures { result ≡ block_read c m.now b }
{
    let fields = (c.fields * (c.ms + 16)) as usize;
    let t = mack_reader::take_block(m, k.used, fields, c.width, rest_bits(c) - 8 * c.width);
    let key = t.key;
    Block {
        key,
        spare: t.spare,
        next: Cursor { used: t.used },
    }
}

// ---- places

// The bit at which field j of the section begins.
pub fn field_place(c: Chain, j: usize) -> usize
    requires { FieldsFit c × (j < c.nmack * c.fields) }
    ensures { result ≡ S.field_at c j }
{
    let block = bitfields::block_bits(c.nmack) as usize;
    let fields = c.fields as usize;
    let wide = c.ms as usize + 16;
    (j / fields) * block + (j % fields) * wide
}

// The bit at which block b's key begins.
pub fn key_place(c: Chain, b: u64) -> usize
    requires { KeysFit c × ((1 ≤ b) × (b ≤ c.nmack)) }
    ensures { result ≡ S.key_at c b }
{
    let block = bitfields::block_bits(c.nmack);
    ((b - 1) * block + c.fields * (c.ms + 16)) as usize
}

// Bits of a block after its fields: the key, then spare bits.
fn rest_bits(c: Chain) -> usize
    requires { FieldsFit c }
    ensures { result ≡ rest_bits c }
{
    let block = bitfields::block_bits(c.nmack);
    (block - c.fields * (c.ms + 16)) as usize
}
