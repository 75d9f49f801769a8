ghost use Rattle.std.specs.Prelude.{◌≡◌};
ghost use Rattle.subdivision.specs.Dyadic.{bits, top_bit, low_bit, lca};

// The bit length of k: document 01, bits(k).
pub fn bit_length(k: u32) -> u32
    ensures { result ≡ bits k }
{
    // A halving loop rather than `leading_zeros`: the must-fail edits bit_length_skips_a_bit and bit_length_leaves_the_last_bit hold it.
    let mut rest = k;
    let mut count = 0;
    while 0 < rest {
        rest = rest / 2;
        count += 1;
    }
    count
}

// The top bit of k, and 0 for 0.
pub fn top_bit(k: u32) -> u32
    ensures { result ≡ top_bit k }
{
    if k == 0 { 0 } else { 1 << (bit_length(k) - 1) }
}

// For i < j, the number of the chain of an edge between the places i and j: recursion on halved
// places, the higher place falling at each call, a named form of document 01.
pub fn lca(i: u32, j: u32) -> u32
    ensures { result ≡ lca i j }
{
    if j <= i || j - i == 1 {
        return j;
    }
    2 * lca(i / 2, j / 2)
}

// The lowest set bit of k, and 0 for 0.
pub fn low_bit(k: u32) -> u32
    ensures { result ≡ low_bit k }
{
    if k == 0 {
        return 0;
    }
    // The bits spelled out: the must-fail edit low_bit_joins_the_bits holds them.
    k - (k & (k - 1))
}
