ghost use Rattle.std.specs.Prelude.{◌≡◌, ◌<◌, ◌+ℤ◌, ◌-ℤ◌, ◌*ℤ◌, ◌≤ℤ◌, ◌∷◌, [], pos};
ghost use Rattle.std.specs.Int.{int_shr};
ghost use Rattle.m2v_idct.specs.Inverse.{combine, scaled};
ghost use Rattle.m2v_idct.specs.Ranges.{Within};
ghost use Rattle.m2v_idct.specs.Terms.{AreTerms};

// What the results of a row or a column are made of: the odd inputs turned in pairs, the inputs 2
// and 6 turned, and the sum and the difference of the inputs 0 and 4.
#[derive(Clone, Copy)]
pub struct Terms {
    pub a1: i32,
    pub a7: i32,
    pub a5: i32,
    pub a3: i32,
    pub e2: i32,
    pub e6: i32,
    pub p: i32,
    pub m: i32,
}

// The eight results of a row or a column, of which the shift drops n bits.
#[inline(always)]
pub fn combine_terms(t: &Terms, n: u32) -> [i32; 8]
    requires n { n < 32 }
    requires terms { AreTerms t.now }
    ensures { result ≡ combine t.now.a1 t.now.a7 t.now.a5 t.now.a3 t.now.e2 t.now.e6 t.now.p t.now.m
        n }
{
    join_parts(even_part(t), odd_part(t), n)
}

// Four sums: those of the even part, or what is added to them and taken from them.
#[derive(Clone, Copy)]
struct Part {
    s0: i32,
    s1: i32,
    s2: i32,
    s3: i32,
}

// What is added to and taken from the even part.
#[inline(always)]
fn odd_part(t: &Terms) -> Part
    requires terms { AreTerms t.now }
    ensures o0 { result.s0 ≡ t.now.a1 +ℤ t.now.a5 }
    ensures o3 { result.s3 ≡ t.now.a7 +ℤ t.now.a3 }
    ensures o1 { result.s1 ≡ scaled ((t.now.a1 -ℤ t.now.a5) +ℤ (t.now.a7 -ℤ t.now.a3)) }
    ensures o2 { result.s2 ≡ scaled ((t.now.a1 -ℤ t.now.a5) -ℤ (t.now.a7 -ℤ t.now.a3)) }
    ensures o0_within { Within 235000000 result.s0 }
    ensures o1_within { Within 235000000 result.s1 }
    ensures o2_within { Within 235000000 result.s2 }
    ensures o3_within { Within 235000000 result.s3 }
{
    let p = t.a1 - t.a5;
    let r = t.a7 - t.a3;
    Part {
        s0: t.a1 + t.a5,
        s1: scale(p + r),
        s2: scale(p - r),
        s3: t.a7 + t.a3,
    }
}

// The four sums of the even part.
#[inline(always)]
fn even_part(t: &Terms) -> Part
    requires terms { AreTerms t.now }
    ensures s0 { result.s0 ≡ t.now.p +ℤ t.now.e2 }
    ensures s1 { result.s1 ≡ t.now.m +ℤ t.now.e6 }
    ensures s2 { result.s2 ≡ t.now.m -ℤ t.now.e6 }
    ensures s3 { result.s3 ≡ t.now.p -ℤ t.now.e2 }
    ensures s0_within { Within 164000000 result.s0 }
    ensures s1_within { Within 164000000 result.s1 }
    ensures s2_within { Within 164000000 result.s2 }
    ensures s3_within { Within 164000000 result.s3 }
{
    Part {
        s0: t.p + t.e2,
        s1: t.m + t.e6,
        s2: t.m - t.e6,
        s3: t.p - t.e2,
    }
}

#[inline(always)]
fn join_parts(even: Part, odd: Part, n: u32) -> [i32; 8]
    requires n { n < 32 }
    requires s0 { Within 164000000 even.s0 }
    requires s1 { Within 164000000 even.s1 }
    requires s2 { Within 164000000 even.s2 }
    requires s3 { Within 164000000 even.s3 }
    requires o0 { Within 235000000 odd.s0 }
    requires o1 { Within 235000000 odd.s1 }
    requires o2 { Within 235000000 odd.s2 }
    requires o3 { Within 235000000 odd.s3 }
    ensures { result
        ≡ int_shr (even.s0 +ℤ odd.s0) n ∷ int_shr (even.s1 +ℤ odd.s1) n
        ∷ int_shr (even.s2 +ℤ odd.s2) n ∷ int_shr (even.s3 +ℤ odd.s3) n
        ∷ int_shr (even.s3 -ℤ odd.s3) n ∷ int_shr (even.s2 -ℤ odd.s2) n
        ∷ int_shr (even.s1 -ℤ odd.s1) n ∷ int_shr (even.s0 -ℤ odd.s0) n ∷ [] }
{
    [
        shift_sum(even.s0, odd.s0, n),
        shift_sum(even.s1, odd.s1, n),
        shift_sum(even.s2, odd.s2, n),
        shift_sum(even.s3, odd.s3, n),
        shift_difference(even.s3, odd.s3, n),
        shift_difference(even.s2, odd.s2, n),
        shift_difference(even.s1, odd.s1, n),
        shift_difference(even.s0, odd.s0, n),
    ]
}

#[inline(always)]
fn shift_sum(x: i32, y: i32, n: u32) -> i32
    requires x { Within 164000000 x }
    requires y { Within 235000000 y }
    requires n { n < 32 }
    ensures { result ≡ int_shr (x +ℤ y) n }
{
    (x + y) >> n
}

#[inline(always)]
fn shift_difference(x: i32, y: i32, n: u32) -> i32
    requires x { Within 164000000 x }
    requires y { Within 235000000 y }
    requires n { n < 32 }
    ensures { result ≡ int_shr (x -ℤ y) n }
{
    (x - y) >> n
}

// 181 / 256 of t to the nearest, in two parts: 181 times t does not fit 32 bits.
#[inline(always)]
fn scale(t: i32) -> i32
    requires { Within 328000000 t }
    ensures value { result ≡ scaled t }
    ensures within { Within 235000000 result }
{
    let high = shift(t);
    let low = rest(t, high);
    join(high, shift(round_up(low)))
}

#[inline(always)]
fn shift(z: i32) -> i32
    ensures low { (pos 256 *ℤ result) ≤ℤ z }
    ensures high { z ≤ℤ (pos 256 *ℤ result +ℤ pos 255) }
{
    z >> 8
}

// What a division by 256 leaves.
#[inline(always)]
fn rest(t: i32, high: i32) -> i32
    requires low { (pos 256 *ℤ high) ≤ℤ t }
    requires high { t ≤ℤ (pos 256 *ℤ high +ℤ pos 255) }
    ensures { result ≡ t -ℤ pos 256 *ℤ high }
{
    t - high * 256
}

#[inline(always)]
fn round_up(low: i32) -> i32
    requires { Within 1000000 low }
    ensures { result ≡ pos 181 *ℤ low +ℤ pos 128 }
{
    181 * low + 128
}

#[inline(always)]
fn join(high: i32, low: i32) -> i32
    requires high { Within 2000000 high }
    requires low { Within 1000000 low }
    ensures { result ≡ pos 181 *ℤ high +ℤ low }
{
    181 * high + low
}
