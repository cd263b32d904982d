//! What holds of all runs of a connection: each function here is a theorem, and does nothing.
ghost use Rattle.std.specs.Prelude.{◌≡◌, ◌⊎◌, ◌++◌, ℕ, List, None, false, flat_map};
ghost use Rattle.vhost_backend.specs.Run.{Course, Move, MoveBy, Moves, RunsBy, ends_of};
ghost use Rattle.vhost_backend.specs.RunLaws.{IsGiven, Waits, is_marks};
ghost use Rattle.vhost_backend.specs.Sound.{Sound};
ghost use Rattle.vhost_backend.specs.declared.block_connection.BlockConnection.{BlockConnection};
ghost use Rattle.vhost_backend.specs.declared.rows.ActionRow.{ActionRow};
ghost use Rattle.vhost_backend.specs.declared.rows.Counts.{Counts};
ghost use Rattle.vhost_backend.specs.declared.rows.EndRow.{EndRow};
ghost use Rattle.vhost_backend.specs.declared.rows.PieceRow.{PieceRow};

/// A page that waits to be marked waits until it is given: none is lost by a move. What is given beside marks, as an
/// interrupt, a reply or a part, and what is done on memory comes after the marks of all pages that waited before it in
/// the run. And when a chain is returned, none waited at any time of this run: the program has marked all by then.
pub fn marks_come_first()
    ensures stays { (page : ℕ) (c d : Course) (ms : List Move) → Moves c ms d → Waits page c
        → Waits page d ⊎ IsGiven page ms }
    ensures others { (page : ℕ) (c d e : Course) (ms : List Move) (m : Move) → Moves c ms d → MoveBy d m e
        → is_marks m ≡ false → Waits page c → IsGiven page ms }
    ensures returns { (page : ℕ) (c d e : Course) (ms : List Move) (m : Move) → Moves c ms d → MoveBy d m e
        → is_marks m ≡ false → (d.connection.backend.returning ≡ None → ⊥) → Waits page c → ⊥ }
{}

/// The ends are taken in order, and each once.
pub fn ends_are_taken_in_order()
    ensures { (c d : Course) (ms : List Move) → Moves c ms d → c.ends ≡ flat_map ends_of ms ++ d.ends }
{}

/// After a run, too, the queues have the requests that rings have under way, and those whose chains are to be returned
/// ([`queues_have_what_rings_have_under_way`](crate::whole_laws::queues_have_what_rings_have_under_way)). So each chain
/// that a ring's state machine returns is found in guest memory, and returned there once.
pub fn runs_keep_what_rings_have_under_way()
    ensures { (c new_c : BlockConnection) (ends : List EndRow) (turns : ℕ) (actions : List ActionRow)
        (pieces : List PieceRow) (bytes : List ℕ) (counts : Counts)
        → RunsBy c ends turns actions pieces bytes counts new_c → Sound c.backend → Sound new_c.backend }
{}
