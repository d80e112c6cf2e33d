//! What holds of the coded stream.
ghost use Rattle.std.specs.Prelude.{ℕ, ◌≡◌, List};
ghost use Rattle.m2v_set.specs.declared.settings.Settings.{Settings};
ghost use Rattle.m2v_enc_stream.specs.Streams.{coded_all, Coded, Recon};

/// The stream and the frames that it shows don't depend on how many workers there are.
pub fn law_workers()
    ensures coded { (s : Settings) (workers : ℕ) (frames : List (List ℕ))
        → Coded (record s { workers = workers }) frames ≡ Coded s frames }
    ensures recon { (s : Settings) (workers : ℕ) (frames : List (List ℕ))
        → Recon (record s { workers = workers }) frames ≡ Recon s frames }
{}
