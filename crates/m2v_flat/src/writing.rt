// The bits of a stream: units, slices, macroblocks and blocks.
pub(crate) mod blocks;
pub(crate) mod macroblocks;
pub(crate) mod pictures;
pub(crate) mod units;
