// What the equations of a batch say together.

ghost use Rattle.std.specs.Prelude.{◌≡◌, ◌<◌, ◌≤◌, ℕ, List, length, slice_index, All};
ghost use Rattle.wiring.specs.Netlist.{Netlist};
ghost use Rattle.wiring.specs.Rules.{KeepsRules};
ghost use Rattle.wiring.specs.Snapshot.{Contents, Snapshot, Fit, FitsContents};
ghost use Rattle.wiring.specs.Clock.{Clock};
ghost use Rattle.wiring.specs.Runs.{Runs};
ghost use Rattle.cycle_sim.specs.Ports.{din_widths};
ghost use Rattle.batch_rows.specs.Rights.{IsAtomRow};
ghost use Rattle.lane_rows.specs.Values.{value_at};
ghost use Rattle.lane_rows.specs.Words.{words_after, IsReadUpTo, AreInside};
ghost use Rattle.batch_rows.specs.Code.{AreRows};
ghost use Rattle.batch_rows.specs.declared.module_code.WordRead.{WordRead};
ghost use Rattle.batch_rows.specs.declared.module_code.WordPut.{WordPut};
ghost use Rattle.batch_rows.specs.declared.module_code.BatchCode.{BatchCode};
ghost use Rattle.batch_code.specs.Batch.{IsBatch, firsts};
ghost use Rattle.batch_code.specs.Streams.{Streams, AreStreams, shot_at, contents_at};
ghost use Rattle.batch_code.specs.Code.{IsBatchCode};
ghost use Rattle.batch_code.specs.Rows.{words_put, KeepsArray, KeepEquations, AreLeft, RowsRan};

/// A law: steps from clock to clock are a run.
#[tactic(auto, using(crate::proofs::BatchRuns::runs_of))]
pub fn batch_runs_law()
    ensures { (m : Netlist) (clocks : List Clock) (shot : ℕ → Snapshot) (stored : ℕ → Contents) → IsBatch m clocks shot stored
        → Runs m (stored 0) clocks (firsts shot (length clocks)) (stored (length clocks)) }
{}

/// A law: streams that keep every equation at every clock of a batch are its run.
#[tactic(auto, using(crate::proofs::StreamRuns::run_is))]
pub fn streams_run_law()
    ensures { (m : Netlist) → KeepsRules m → (clocks : List Clock) (s : Streams) → AreStreams m clocks s
        → Runs m (contents_at m s 0) clocks (firsts (shot_at m s) (length clocks)) (contents_at m s (length clocks)) }
{}

/// A law: rows that keep the equations of a module's code over the clocks of a batch are the module's run.
#[tactic(auto, using(crate::proofs::RowsRun::rows_ran))]
pub fn rows_run_law()
    ensures { (m : Netlist) (c : BatchCode) → KeepsRules m → IsBatchCode m c → (clocks : List Clock) (from to : Contents) (rows : List (List ℕ))
        → All (λ (k : Clock). Fit (din_widths m) k.dins) clocks → FitsContents m from → KeepEquations m c clocks from rows
        → AreLeft m c rows (length clocks) from to → RowsRan m clocks from to rows }
{}

/// A law: what is left after this many clocks fits, where the rows' values fit their slots.
pub fn contents_fit_law()
    ensures { (m : Netlist) (c : BatchCode) → KeepsRules m → IsBatchCode m c → (from to : Contents) (rows : List (List ℕ)) (long count : ℕ) → count < long
        → FitsContents m from → AreRows c.widths.items long rows → AreLeft m c rows count from to → FitsContents m to }
{}

/// A law: the words that a pass over the rows of a put's index and value leaves are those of the put.
#[tactic(auto, using(crate::proofs::Arrays::words_same))]
pub fn words_are_put_law()
    ensures { (rows : List (List ℕ)) (p : WordPut) (count : ℕ) (words index value : List ℕ) → IsAtomRow rows p.index count index
        → IsAtomRow rows p.value count value → (t : ℕ) → t ≤ count → words_after words index value t ≡ words_put rows p words t }
{}

/// A law: a pass over the rows of an array's indexes and of the value put that reads what is in the target's row keeps the array's equations.
pub fn array_kept_law()
    ensures { (rows : List (List ℕ)) (r : WordRead) (p : WordPut) (count : ℕ) (words to read index value : List ℕ) → IsAtomRow rows r.index count read
        → IsAtomRow rows p.index count index → IsAtomRow rows p.value count value → AreInside count read (length words) → AreInside count index (length words)
        → IsReadUpTo count words to read index value → ((t : ℕ) → t < count → value_at rows t r.target ≡ slice_index to t) → KeepsArray rows count words r p }
{}
