ghost use Rattle.std.specs.Prelude.{◌≡◌, ◌<◌, ◌≤◌, ◌∷◌, [], ℕ, List, All, Some, None, codes, false, length};
ghost use Rattle.pc_desk_words.specs.Program.{most_columns, most_queries};
ghost use Rattle.pc_desk_words.specs.Words.{ask, asked_of, draft, history, is_dashed, limit, opens, session, sql, trial, weigh, why, usual_nodes, usual_scale, with_files};
ghost use Rattle.pc_desk_words.specs.declared.form.Form.TheVariants.{Text};
ghost use Rattle.pc_desk_words.specs.declared.form.SheetForm.TheVariants as sheets;
ghost use Rattle.pc_desk_words.specs.declared.form.DrawnForm.TheVariants as drawn;

/// After `ask`, words of which none begins with `-` are the three files and the queries, as they stand: from one to
/// sixteen, answered as text, with the usual number of nodes.
pub fn plain_words_are_asked()
    ensures { (schema rows constraints query : List ℕ) (queries : List (List ℕ)) → All (λ word. is_dashed word ≡ false) (schema ∷ rows ∷ constraints ∷ query ∷ queries) → length queries < most_queries → asked_of (codes "ask" ∷ schema ∷ rows ∷ constraints ∷ query ∷ queries) ≡ Some (ask (record { form = Text; nodes = usual_nodes; files = with_files schema rows constraints; queries = query ∷ queries })) }
{}

/// After `session`, four such words are the three files and the script.
pub fn plain_words_are_a_session()
    ensures { (schema rows constraints script : List ℕ) → All (λ word. is_dashed word ≡ false) (schema ∷ rows ∷ constraints ∷ script ∷ []) → asked_of (codes "session" ∷ schema ∷ rows ∷ constraints ∷ script ∷ []) ≡ Some (session (record { form = Text; nodes = usual_nodes; files = with_files schema rows constraints; script = script })) }
{}

/// After `why`, such words are the three files and the queries, as after `ask`.
pub fn plain_words_ask_why()
    ensures { (schema rows constraints query : List ℕ) (queries : List (List ℕ)) → All (λ word. is_dashed word ≡ false) (schema ∷ rows ∷ constraints ∷ query ∷ queries) → length queries < most_queries → asked_of (codes "why" ∷ schema ∷ rows ∷ constraints ∷ query ∷ queries) ≡ Some (why (record { form = drawn.Text; nodes = usual_nodes; files = with_files schema rows constraints; queries = query ∷ queries })) }
{}

/// After `weigh`, four such words are the three files and the query, shown as text, with the usual number of nodes, of
/// all constraints, unsorted.
pub fn plain_words_ask_to_weigh()
    ensures { (schema rows constraints query : List ℕ) → All (λ word. is_dashed word ≡ false) (schema ∷ rows ∷ constraints ∷ query ∷ []) → asked_of (codes "weigh" ∷ schema ∷ rows ∷ constraints ∷ query ∷ []) ≡ Some (weigh (record { form = drawn.Text; nodes = usual_nodes; by = None; sorted = false; files = with_files schema rows constraints; query = query })) }
{}

/// After `try`, three such words are the schema, the constraints and the rows, shown as text, with the factor 1.
pub fn plain_words_are_a_trial()
    ensures { (schema constraints rows : List ℕ) → All (λ word. is_dashed word ≡ false) (schema ∷ constraints ∷ rows ∷ []) → asked_of (codes "try" ∷ schema ∷ constraints ∷ rows ∷ []) ≡ Some (trial (record { form = sheets.Text; scale = usual_scale; files = with_files schema rows constraints })) }
{}

/// After `opens`, two such words are the schema and the constraints, shown as text.
pub fn plain_words_ask_what_opens()
    ensures { (schema constraints : List ℕ) → All (λ word. is_dashed word ≡ false) (schema ∷ constraints ∷ []) → asked_of (codes "opens" ∷ schema ∷ constraints ∷ []) ≡ Some (opens (record { form = sheets.Text; files = with_files schema [] constraints })) }
{}

/// After `history` and `--by`, three such words are what divides the rows, the schema and the rows: all rows are meant,
/// of one period, nothing is widened, and how many rows are lost is not said.
pub fn plain_words_ask_for_history()
    ensures { (by schema rows : List ℕ) → All (λ word. is_dashed word ≡ false) (by ∷ schema ∷ rows ∷ []) → asked_of (codes "history" ∷ codes "--by" ∷ by ∷ schema ∷ rows ∷ []) ≡ Some (history (record { files = with_files schema rows []; by = by; chosen = None; per = None; widen = 0; lost = None })) }
{}

/// After `limit`, three such words are the schema, the constraints and the limits.
pub fn plain_words_ask_for_limits()
    ensures { (schema constraints limits : List ℕ) → All (λ word. is_dashed word ≡ false) (schema ∷ constraints ∷ limits ∷ []) → asked_of (codes "limit" ∷ schema ∷ constraints ∷ limits ∷ []) ≡ Some (limit (record { files = with_files schema [] constraints; limits = limits })) }
{}

/// After `sql`, three such words are the schema, the constraints and the table.
pub fn plain_words_ask_for_sql()
    ensures { (schema constraints table : List ℕ) → All (λ word. is_dashed word ≡ false) (schema ∷ constraints ∷ table ∷ []) → asked_of (codes "sql" ∷ schema ∷ constraints ∷ table ∷ []) ≡ Some (sql (record { files = with_files schema [] constraints; table = table })) }
{}

/// After `schema`, such words are the rows and the columns that are wanted, of which there may be none and at most twelve.
pub fn plain_words_ask_for_a_draft()
    ensures { (rows : List ℕ) (columns : List (List ℕ)) → All (λ word. is_dashed word ≡ false) (rows ∷ columns) → length columns ≤ most_columns → asked_of (codes "schema" ∷ rows ∷ columns) ≡ Some (draft (record { rows = rows; columns = columns })) }
{}
