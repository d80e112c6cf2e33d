//! What the encoder's tree shows a decoder, the reconstructions in display order, and what it tells a verifier: its headers
//! and pictures in order, which break none of the rules; the pieces of the stream, as its buffer's account sees them; and the
//! headline: the stream decodes to its reconstructions, is lawful, and keeps the decoder's buffer. Definitions and lemmas, with
//! the laws that they give.
#![tactic(auto)]

mod laws;
mod stream_laws;

pub use laws::{
    law_display_order, law_encoded_decodes, law_encoded_lawful, law_frame_painted,
    law_lawful_groups, law_lawful_headers, law_references, law_shown, law_slice_painted, law_told,
};
pub use m2v_enc_stream as enc_stream;
pub use stream_laws::{law_account, law_headline, law_pieces};
