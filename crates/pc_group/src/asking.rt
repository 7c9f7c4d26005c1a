ghost use Rattle.std.specs.Prelude.{◌≡◌, ◌≤◌, All, IfOk, OnOk};
ghost use Rattle.std.specs.List.{AllZip};
ghost use Rattle.pc_model.specs.Accepted.{IsQuery};
ghost use Rattle.pc_cells_tree.specs.Linked.{KeepsInner};
ghost use Rattle.pc_session.specs.Sessions.{IsSession};
ghost use Rattle.pc_proof.specs.Form.{IsInForm};
ghost use Rattle.pc_group.specs.Answers.{AnswersWanted};
ghost use Rattle.pc_group.specs.Trees.{AreDividedFor, AreOfTree, AreWritten, HasCutsForBlocks, told};
ghost use Rattle.pc_group.specs.Wanted.{wanted};

use crate::answers::answer_with;
use pc_model::Query;
use pc_num::Memory;
use pc_proof::Document;
use pc_session::Session;
use std::alloc::Global;

/// The blocks of queries about what a session holds, over its tree of cuts, which is cut on for all of them. After
/// `Memory` the tree may have been cut on for some.
pub fn ask(
    alloc: Global,
    session: &mut Session,
    queries: &[Query],
    nodes: u32,
) -> Result<Document, Memory>
    requires session { IsSession session.old }
    requires asked { All (IsQuery session.old.schema) queries.now }
    requires budget { (1 ≤ nodes) × (nodes ≤ 100_000) }
    ensures session { IsSession session.new }
    ensures schema { session.new.schema ≡ session.old.schema }
    ensures rows { session.new.rows ≡ session.old.rows }
    ensures constraints { session.new.constraints ≡ session.old.constraints }
    ensures kept { KeepsInner session.old.tree.nodes session.new.tree.nodes }
    ensures needed { HasCutsForBlocks session.old.schema session.old.constraints
        (wanted session.old.schema queries.now) session.old.tree.nodes session.new.tree.nodes }
    ensures divided { OnOk result (AreDividedFor session.old.schema session.old.constraints session.new.tree.nodes (wanted session.old.schema queries.now)) }
    ensures answers { IfOk result (λ document. AllZip (AnswersWanted nodes session.old.schema session.old.rows session.old.constraints) (wanted session.old.schema queries.now) (told document.blocks)) }
    ensures shared { IfOk result (λ document. AreOfTree session.new.tree.nodes (told document.blocks)) }
    ensures written { IfOk result (λ document. AreWritten document.blocks) }
    ensures formed { IfOk result (IsInForm session.old.schema) }
{
    answer_with(
        alloc,
        &session.schema,
        &session.rows,
        session.constraints.as_slice(),
        queries,
        &mut session.tree,
        nodes,
    )
}
