//! Laws of the board, and of its limits. Each function does nothing that is seen: its contract is a
//! law, for proofs to cite.

ghost use Rattle.std.specs.Prelude.{◌≡◌};
ghost use Rattle.wb_board.specs.Laws.{AnswersConverge, CanvasesConverge, ReportsAgree};
ghost use Rattle.wb_board.specs.Runs.{OneRun};
ghost use Rattle.wb_board.specs.declared.board.TheConstants.{MAX_WORKERS};

/// The replies of a board to all callers are one run of a whiteboard of one thread. Let each reply
/// be the answer at its point of the history, let the points of a caller never fall, and rise after
/// a new drawop, and let each drawop be new to one of them. Then the calls by their points, at each
/// point the new drawop last, make a run in which each answer is that of the whiteboard at the
/// history so far, and in which each caller's calls stand, each once, in their order.
pub fn one_run()
    ensures { OneRun }
{}

/// Boards that hold the same drawops, whatever the order in which they came, give the same gaps (of
/// equal marks), reports, page lists and views, and what they show paints the same canvas.
pub fn order_is_free()
    ensures answers { AnswersConverge }
    ensures canvases { CanvasesConverge }
{}

/// What a session message means: two boards that have one report of a page, and no gaps below it,
/// show the same there, if each name has one content in both. So a host that lacks nothing below
/// the marks of a session message, and has no more, shows what its sender showed, if that lacked
/// nothing.
pub fn reports_agree()
    ensures { ReportsAgree }
{}

/// The most workers of a batch.
pub fn limits()
    ensures workers { MAX_WORKERS ≡ 8 }
{}
