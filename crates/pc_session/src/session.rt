ghost use Rattle.std.specs.Prelude.{◌≡◌, ◌+◌, ◌*◌, ◌<◌, ◌≤◌, ◌∷◌, ◌++◌, [], true, length, IfOk, OnErr, OnOk};
ghost use Rattle.std.specs.List.{AllPass, remove};
ghost use Rattle.pc_model.specs.declared.tree.LeafMark.TheVariants.{Barren};
ghost use Rattle.pc_model.specs.declared.tree.CutNode.TheVariants as forms;
ghost use Rattle.pc_model.specs.Accepted.{AreConstraints};
ghost use Rattle.pc_model.specs.Membership.{in_domain};
ghost use Rattle.pc_model.specs.Regions.{whole_area};
ghost use Rattle.pc_model.specs.WellFormed.{IsWellFormed, HaveFewNames};
ghost use Rattle.pc_cells_tree.specs.Linked.{HasNeededCuts, KeepsInner, leaf_count};
ghost use Rattle.pc_rows.specs.Stored.{row_limit};
ghost use Rattle.pc_session.specs.Edited.{CanEdit, edited};
ghost use Rattle.pc_session.specs.Sessions.{AddsOneBox, IsHeldOver, IsOfRows, IsSession, held_by};

use crate::copies::copies_of;
use crate::line::Edit;
use pc_cells::Shared;
use pc_list::Seq;
use pc_model::{Area, Constraint, Row, Schema};
use pc_num::Memory;
use pc_rows::Rows;
use std::alloc::Global;

/// What is held while a script is followed, and one tree of cuts for all that is asked: each of its leaves can be
/// marked as settled for the constraints and the whole domain.
#[derive(Debug, Drop)]
pub struct Session {
    pub schema: Schema,
    pub rows: Rows,
    pub constraints: Seq<Constraint>,
    pub tree: Shared,
}

impl Session {
    /// Takes over what was read, and cuts a tree for the constraints.
    pub fn begin(
        alloc: Global,
        schema: Schema,
        rows: Rows,
        constraints: Seq<Constraint>,
    ) -> Result<Self, Memory>
        requires well_formed { IsWellFormed schema }
        requires few_names { HaveFewNames schema.columns }
        requires seen { AllPass (in_domain schema) rows }
        requires accepted { AreConstraints schema constraints }
        ensures schema { IfOk result (λ session. session.schema ≡ schema) }
        ensures rows { IfOk result (λ session. session.rows ≡ rows) }
        ensures constraints { IfOk result (λ session. session.constraints ≡ constraints) }
        ensures session { IfOk result IsSession }
        ensures needed { IfOk result (λ session.
            HasNeededCuts schema constraints (whole_area schema) (forms.Leaf Barren ∷ []) session.tree.nodes) }
    {
        let whole = schema.whole_area(alloc)?;
        let mut tree = Shared::new(alloc, &schema)?;
        tree.refine(&schema, constraints.as_slice(), &whole)?;
        Ok(Session {
            schema,
            rows,
            constraints,
            tree,
        })
    }

    /// Follows an edit; answers how many cuts that took. An edit of the rows leaves the tree. After `Memory` all is as
    /// before.
    pub fn edit(&mut self, edit: Edit) -> Result<u64, Memory>
        requires session { IsSession self.old }
        requires can { CanEdit self.old.schema (held_by self.old) edit }
        ensures edited { OnOk result (held_by self.new ≡ edited (held_by self.old) edit) }
        ensures schema { self.new.schema ≡ self.old.schema }
        ensures session { IsSession self.new }
        ensures kept { KeepsInner self.old.tree.nodes self.new.tree.nodes }
        ensures needed { HasNeededCuts self.old.schema self.new.constraints (whole_area self.old.schema)
            self.old.tree.nodes self.new.tree.nodes }
        ensures cuts { IfOk result (λ cuts. length self.new.tree.nodes ≡ length self.old.tree.nodes + 2 * cuts) }
        ensures of_rows { IsOfRows edit → IfOk result (λ cuts. (cuts ≡ 0) × (self.new.tree ≡ self.old.tree)) }
        ensures frugal { AddsOneBox edit → IfOk result (λ cuts. cuts ≤ 4 * length self.old.schema.columns * leaf_count self.old.tree.nodes) }
        ensures memory { OnErr result (self.new ≡ self.old) }
    {
        match edit {
            Edit::AddRow(row) => self.add_row(row),
            Edit::DropRow(at) => Ok(self.drop_row(at)),
            Edit::AddRule(constraint) => self.add_rule(constraint),
            Edit::DropRule(at) => self.drop_rule(at as usize),
        }
    }

    fn add_row(&mut self, row: Row) -> Result<u64, Memory>
        requires session { IsSession self.old }
        requires few { length self.old.rows < row_limit }
        requires allowed { in_domain self.old.schema row ≡ true }
        ensures done { OnOk result (self.new ≡ record self.old { rows = self.old.rows ++ row ∷ [] }) }
        ensures cuts { IfOk result (λ cuts. cuts ≡ 0) }
        ensures memory { OnErr result (self.new ≡ self.old) }
    {
        self.rows.push(row)?;
        Ok(0)
    }

    fn drop_row(&mut self, at: u64) -> u64
        requires there { at < length self.old.rows }
        ensures done { self.new ≡ record self.old { rows = remove self.old.rows at } }
        ensures cuts { result ≡ 0 }
    {
        self.rows.remove(at);
        0
    }

    fn add_rule(&mut self, constraint: Constraint) -> Result<u64, Memory>
        requires session { IsSession self.old }
        requires accepted { AreConstraints self.old.schema (self.old.constraints ++ constraint ∷ []) }
        ensures done { IfOk result (IsHeldOver (self.old.constraints ++ constraint ∷ []) self.old self.new) }
        ensures memory { OnErr result (self.new ≡ self.old) }
    {
        let mut constraints = copies_of(self.alloc(), self.constraints.as_slice())?;
        constraints.push(constraint)?;
        self.hold(constraints)
    }

    fn drop_rule(&mut self, at: usize) -> Result<u64, Memory>
        requires session { IsSession self.old }
        requires there { at < length self.old.constraints }
        ensures done { IfOk result (IsHeldOver (remove self.old.constraints at) self.old self.new) }
        ensures memory { OnErr result (self.new ≡ self.old) }
    {
        let mut constraints = copies_of(self.alloc(), self.constraints.as_slice())?;
        constraints.remove(at);
        self.hold(constraints)
    }

    // Holds these constraints instead, once the tree is cut on for them.
    fn hold(&mut self, constraints: Seq<Constraint>) -> Result<u64, Memory>
        requires session { IsSession self.old }
        requires accepted { AreConstraints self.old.schema constraints }
        ensures done { IfOk result (IsHeldOver constraints self.old self.new) }
        ensures memory { OnErr result (self.new ≡ self.old) }
    {
        let whole = self.schema.whole_area(self.alloc())?;
        let cuts = self
            .tree
            .refine(&self.schema, constraints.as_slice(), &whole)?;
        self.constraints = constraints;
        Ok(cuts)
    }

    fn alloc(&self) -> Global {
        self.constraints.allocator()
    }
}
