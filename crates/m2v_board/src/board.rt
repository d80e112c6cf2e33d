// The board as threads share it.
ghost use Rattle.std.specs.Prelude.{◌≡◌, ◌+◌};

use crate::post::Post;
use crate::rule::{About, Ruling};
use crate::view::View;
use atomic_table::Table;
use m2v_core::JobBook;
use std::alloc::Global;

/// The claims and posts of one book's jobs, for any number of threads at once.
///
/// Word 0 of its table counts draws. Word j + 1 is 0 before job j is published, 1 where its post is
/// at home in slot j, and 2 where one pass has the post to learn from it. `specs/Rule.antt` has the
/// rule that holds between any two steps.
pub struct Board<B: JobBook> {
    pub(crate) table: Table<Option<Box<Post<B>>>, View, About<B>, Ruling<B>, Global>,
    pub(crate) jobs: u32,
    ghost sized: { (table.shared.table_id.words ≡ jobs + 1) × (table.shared.table_id.slots ≡ jobs)
        × (table.shared.key.jobs ≡ jobs) },
}
