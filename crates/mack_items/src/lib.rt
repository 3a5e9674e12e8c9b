#![tactic(auto)]

// The items of a MACK section of which fields may be missing (02, P3; 01, "MACK"): each with the answer whether every bit of it came.
// Public calls:
//   tag_item, info_item      a field's tag, and its PRN, ADKD and IOD
//   prn_item, adkd_item      the first two of these alone
//   macseq_item              MACSEQ
//   key_came                 whether a block's key came
ghost use Rattle.std.specs.Prelude.{◌≡◌, ◌+◌, ◌*◌, ◌≤◌, ◌<◌};
ghost use Rattle.mack.specs.Layout.{FieldsFit, KeysFit};
ghost use Rattle.received.specs.Items.{item_at};
ghost use Rattle.rules.specs.Mack.{field_at};
ghost use Rattle.rules.specs.Received.{key_came};

use rules::Chain;

// The n bits of field j from its bit `from` on.
fn field_item(c: Chain, m: &[u8; 60], marks: u16, j: usize, from: usize, n: usize) -> Option<u64>
    requires { (FieldsFit c × (j < c.nmack * c.fields)) × ((from + n ≤ c.ms + 16) × (n ≤ 56)) }
    ensures { result ≡ item_at m.now marks (field_at c j + from) n }
{
    received::item_at(m, marks, mack::field_place(c, j) + from, n)
}

// Field j's tag.
pub fn tag_item(c: Chain, m: &[u8; 60], marks: u16, j: usize) -> Option<u64>
    requires { FieldsFit c × (j < c.nmack * c.fields) }
    ensures { result ≡ item_at m.now marks (field_at c j) c.ms }
{
    field_item(c, m, marks, j, 0, c.ms as usize)
}

// Field j's PRN, ADKD and IOD; of the first field MACSEQ and IOD.
pub fn info_item(c: Chain, m: &[u8; 60], marks: u16, j: usize) -> Option<u64>
    requires { FieldsFit c × (j < c.nmack * c.fields) }
    ensures { result ≡ item_at m.now marks (field_at c j + c.ms) 16 }
{
    field_item(c, m, marks, j, c.ms as usize, 16)
}

// Field j's PRN.
pub fn prn_item(c: Chain, m: &[u8; 60], marks: u16, j: usize) -> Option<u64>
    requires { FieldsFit c × (j < c.nmack * c.fields) }
    ensures { result ≡ item_at m.now marks (field_at c j + c.ms) 8 }
{
    field_item(c, m, marks, j, c.ms as usize, 8)
}

// Field j's ADKD.
pub fn adkd_item(c: Chain, m: &[u8; 60], marks: u16, j: usize) -> Option<u64>
    requires { FieldsFit c × (j < c.nmack * c.fields) }
    ensures { result ≡ item_at m.now marks (field_at c j + c.ms + 8) 4 }
{
    field_item(c, m, marks, j, c.ms as usize + 8, 4)
}

// MACSEQ, after tag0.
pub fn macseq_item(c: Chain, m: &[u8; 60], marks: u16) -> Option<u64>
    requires { c.ms ≤ 40 }
    ensures { result ≡ item_at m.now marks c.ms 12 }
{
    received::item_at(m, marks, c.ms as usize, 12)
}

// Whether block b's key came (blocks from 1).
pub fn key_came(c: Chain, marks: u16, b: u64) -> bool
    requires { KeysFit c × ((1 ≤ b) × (b ≤ c.nmack)) }
    ensures { result ≡ key_came c marks b }
{
    received::bits_came(marks, mack::key_place(c, b), 8 * c.width)
}
