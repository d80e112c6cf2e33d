//! How long the headers are.
ghost use Rattle.std.specs.Prelude.{◌≡◌, ◌≤◌};
ghost use Rattle.m2v_slice.specs.Headers.{begins_group, header_bits as header_bits_of, bits_to_code as bits_to_code_of};

use m2v_order::PictureJob;

/// Whether a picture begins a group: the first of an I frame does.
#[tactic(auto, unfolding(crate::specs::Headers::begins_group))]
pub fn begins(job: &PictureJob) -> bool
    ensures value { result ≡ begins_group job.now }
{
    job.kind == 1 && job.structure != 2
}

/// The bits of a picture's headers, with those of the group that it begins.
#[tactic(auto, unfolding(crate::specs::Headers::header_bits))]
pub fn header_bits(job: &PictureJob) -> u64
    ensures value { result ≡ header_bits_of job.now }
    ensures most { result ≤ 376 }
{
    if begins(job) {
        376
    } else if job.kind == 1 {
        136
    } else {
        144
    }
}

/// The bits of them up to and with the picture start code.
#[tactic(auto, unfolding(crate::specs::Headers::bits_to_code))]
pub fn bits_to_code(job: &PictureJob) -> u64
    ensures value { result ≡ bits_to_code_of job.now }
    ensures most { result ≤ 272 }
{
    if begins(job) { 272 } else { 32 }
}
