/// A picture header without its start code (clause 6.2.3). `kind` is picture_coding_type: 1 I, 2 P, 3 B. The delay
/// is in ticks of 1/90,000 s, 65535 where none is told. What a type doesn't have is 0 or false.
#[derive(Clone, Copy, Debug, PartialEq, Eq)]
pub struct PictureInfo {
    pub temporal_reference: u32,
    pub kind: u8,
    pub vbv_delay: u32,
    pub full_pel_forward: bool,
    pub forward_f_code: u8,
    pub full_pel_backward: bool,
    pub backward_f_code: u8,
}

/// A picture coding extension without its start code (clause 6.2.3.1). `f_code` goes by direction (0 forward,
/// 1 backward) and component (0 horizontal, 1 vertical). `structure` is picture_structure: 1 top field, 2 bottom
/// field, 3 frame. `composite` is the 20 bits behind composite_display_flag, where it is set.
#[derive(Clone, Copy, Debug, PartialEq, Eq)]
pub struct PictureExtension {
    pub f_code: [[u8; 2]; 2],
    pub dc_precision: u8,
    pub structure: u8,
    pub top_field_first: bool,
    pub frame_pred_frame_dct: bool,
    pub concealment: bool,
    pub q_scale_type: bool,
    pub intra_vlc_format: bool,
    pub alternate_scan: bool,
    pub repeat_first_field: bool,
    pub chroma_420_type: bool,
    pub progressive_frame: bool,
    pub composite: Option<u32>,
}
