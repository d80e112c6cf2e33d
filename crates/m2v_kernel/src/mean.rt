//! Means of samples.
ghost use Rattle.std.specs.Prelude.{◌≡◌, ◌≤◌, ◌+◌, length};
ghost use Rattle.std.specs.Simd.Lanes.{zip2};
ghost use Rattle.m2v_kernel.specs.Sums.{mean};

/// The mean of two blocks of equally many samples, each mean rounded up.
pub fn average(a: &[u8], b: &[u8], out: &mut [u8])
    requires same { length a.now ≡ length b.now }
    requires room { length a.now ≡ length out.old }
    ensures value { out.new ≡ zip2 mean a.now b.now }
{
    for i in 0..out.len() {
        out[i] = ((a[i] as u16 + b[i] as u16 + 1) / 2) as u8;
    }
}

/// The mean of each sample of a block and the one of another block, rounded up, in its place.
pub fn average_into(out: &mut [u8], other: &[u8])
    requires same { length other.now ≡ length out.old }
    ensures value { out.new ≡ zip2 mean out.old other.now }
{
    for i in 0..out.len() {
        out[i] = ((out[i] as u16 + other[i] as u16 + 1) / 2) as u8;
    }
}
