#![tactic(auto)]

// The published examples of SHA-256 (FIPS 180-4's example values and NIST's additional ones), of HMAC (RFC 4231), and of SHA3-224 and
// SHA3-256 (NIST's example values for FIPS 202). Each line names the example and gives the code; the expected output is the documents', and
// for SHA-3's lengths about a block's end that of another implementation.
ghost use Rattle.std.specs.Prelude.{◌<◌, ◌^◌, length};

use std::io;

fn main(rt: HostRuntime) -> io::Result<()> {
    sha_messages(&rt)?;
    sha_repeated(&rt)?;
    sha_in_parts(&rt)?;
    hmac_short_keys(&rt)?;
    hmac_long_keys(&rt)?;
    sha3_messages(&rt)?;
    sha3_lengths(&rt)?;
    sha3_blocks(&rt)
}

// The line of an example: its name, and the bytes of d in hexadecimal.
fn line(rt: &impl Print, name: &str, d: &[u8]) -> io::Result<()> {
    print!(rt; "{name} ")?;
    for b in d {
        print!(rt; "{b:02x}")?;
    }
    println!(rt)
}

fn sha(rt: &impl Print, name: &str, m: &[u8]) -> io::Result<()>
    requires { length m.now < 2 ^ 61 }
{
    line(rt, name, &sha256::sha256(m))
}

fn sha_messages(rt: &impl Print) -> io::Result<()> {
    sha(rt, "empty", b"")?;
    sha(rt, "abc", b"abc")?;
    sha(
        rt,
        "448 bits",
        b"abcdbcdecdefdefgefghfghighijhijkijkljklmklmnlmnomnopnopq",
    )?;
    sha(
        rt,
        "896 bits",
        b"abcdefghbcdefghicdefghijdefghijkefghijklfghijklmghijklmnhijklmnoijklmnopjklmnopqklmnopqrlmnopqrsmnopqrstnopqrstu",
    )?;
    let one = [0xbdu8];
    sha(rt, "bd", &one)?;
    let four = [0xc9u8, 0x8c, 0x8e, 0x55];
    sha(rt, "c98c8e55", &four)
}

fn sha_repeated(rt: &impl Print) -> io::Result<()> {
    let zeros = [0u8; 1000];
    sha(rt, "55 zeros", &zeros[..55])?;
    sha(rt, "56 zeros", &zeros[..56])?;
    sha(rt, "57 zeros", &zeros[..57])?;
    sha(rt, "64 zeros", &zeros[..64])?;
    sha(rt, "1000 zeros", &zeros)?;
    let capitals = [0x41u8; 1000];
    sha(rt, "1000 A", &capitals)?;
    let more = [0x55u8; 1005];
    sha(rt, "1005 U", &more)?;
    million(rt, "1000000 a", 0x61)?;
    million(rt, "1000000 zeros", 0)
}

// A million bytes x, which are 15625 blocks.
fn million(rt: &impl Print, name: &str, x: u8) -> io::Result<()> {
    let block = [x; 64];
    let mut h = sha256::initial();
    for _ in 0..15625 {
        let g = sha256::compress(h, &block);
        h = g;
    }
    line(rt, name, &sha256::finish(h, 15625, b"", b""))
}

fn sha_of_two(rt: &impl Print, name: &str, a: &[u8], b: &[u8]) -> io::Result<()>
    requires { (length a.now < 2 ^ 60) × (length b.now < 2 ^ 60) }
{
    line(rt, name, &sha256::sha256_of_two(a, b))
}

fn sha_in_parts(rt: &impl Print) -> io::Result<()> {
    sha_of_two(rt, "abc in two", b"a", b"bc")?;
    sha_of_two(
        rt,
        "896 bits in two",
        b"abcdefghbcdefghicdefghijdefghijkefghijklfghijklmghijklmnhijklmnoijklmno",
        b"pjklmnopqklmnopqrlmnopqrsmnopqrstnopqrstu",
    )?;
    let three = [0u8; 3];
    let others = [0u8; 997];
    sha_of_two(rt, "1000 zeros in two", &three, &others)
}

// The code of m under k, with the key new, and with the key kept: the first n bytes of each.
fn mac(rt: &impl Print, name: &str, k: &[u8], m: &[u8], n: usize) -> io::Result<()>
    requires { (length k.now < 2 ^ 60) × ((length m.now < 2 ^ 60) × (n < 33)) }
{
    line(rt, name, &hmac::hmac(k, m)[..n])?;
    line(rt, name, &hmac::hmac_with(hmac::hmac_key(k), m)[..n])
}

fn hmac_short_keys(rt: &impl Print) -> io::Result<()> {
    let k1 = [0x0bu8; 20];
    mac(rt, "hmac 1", &k1, b"Hi There", 32)?;
    mac(rt, "hmac 2", b"Jefe", b"what do ya want for nothing?", 32)?;
    let k3 = [0xaau8; 20];
    let m3 = [0xddu8; 50];
    mac(rt, "hmac 3", &k3, &m3, 32)?;
    let k4 = [
        1u8, 2, 3, 4, 5, 6, 7, 8, 9, 10, 11, 12, 13, 14, 15, 16, 17, 18, 19, 20, 21, 22, 23, 24, 25,
    ];
    let m4 = [0xcdu8; 50];
    mac(rt, "hmac 4", &k4, &m4, 32)?;
    let k5 = [0x0cu8; 20];
    mac(rt, "hmac 5", &k5, b"Test With Truncation", 16)
}

fn hmac_long_keys(rt: &impl Print) -> io::Result<()> {
    let k = [0xaau8; 131];
    mac(
        rt,
        "hmac 6",
        &k,
        b"Test Using Larger Than Block-Size Key - Hash Key First",
        32,
    )?;
    mac(
        rt,
        "hmac 7",
        &k,
        b"This is a test using a larger than block-size key and a larger than block-size data. The key needs to be hashed before being used by the HMAC algorithm.",
        32,
    )
}

// Both SHA-3 digests of m.
fn both(rt: &impl Print, name: &str, m: &[u8]) -> io::Result<()> {
    print!(rt; "sha3-224 ")?;
    line(rt, name, &sha3::sha3_224(m))?;
    print!(rt; "sha3-256 ")?;
    line(rt, name, &sha3::sha3_256(m))
}

fn sha3_messages(rt: &impl Print) -> io::Result<()> {
    both(rt, "empty", b"")?;
    both(rt, "abc", b"abc")?;
    both(
        rt,
        "448 bits",
        b"abcdbcdecdefdefgefghfghighijhijkijkljklmklmnlmnomnopnopq",
    )?;
    both(
        rt,
        "896 bits",
        b"abcdefghbcdefghicdefghijdefghijkefghijklfghijklmghijklmnhijklmnoijklmnopjklmnopqklmnopqrlmnopqrsmnopqrstnopqrstu",
    )?;
    let m = [0xa3u8; 200];
    both(rt, "1600 bits", &m)
}

// Messages that end about the end of a block, of 136 and of 144 bytes.
fn sha3_lengths(rt: &impl Print) -> io::Result<()> {
    let m = [0x61u8; 300];
    both(rt, "134 a", &m[..134])?;
    both(rt, "135 a", &m[..135])?;
    both(rt, "136 a", &m[..136])?;
    both(rt, "142 a", &m[..142])?;
    both(rt, "143 a", &m[..143])?;
    both(rt, "144 a", &m[..144])?;
    both(rt, "271 a", &m[..271])?;
    both(rt, "272 a", &m[..272])?;
    both(rt, "287 a", &m[..287])?;
    both(rt, "288 a", &m[..288])
}

// "abc", and 42 bytes a, in a block of their own.
fn sha3_blocks(rt: &impl Print) -> io::Result<()> {
    let mut b = [0u8; 64];
    b[..4].copy_from_slice(b"abc\x06");
    in_block(rt, "abc in a block", &b)?;
    let mut c = [0u8; 64];
    c[..42].fill(0x61);
    c[42] = 6;
    in_block(rt, "42 a in a block", &c)
}

fn in_block(rt: &impl Print, name: &str, b: &[u8; 64]) -> io::Result<()> {
    let d = sha3::one_block(144, b);
    let short = &d[..28];
    print!(rt; "sha3-224 ")?;
    line(rt, name, short)?;
    print!(rt; "sha3-256 ")?;
    line(rt, name, &sha3::one_block(136, b))
}
