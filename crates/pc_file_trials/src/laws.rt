use pc_gen::{generated_cases_are_accepted, hidden_rows_are_possible};
use pc_lang::{parts_hold, ways_hold};
use pc_lang_grammar::{
    lines_follow_the_grammar, quantiles_follow_the_grammar, questions_follow_the_grammar,
};
use pc_num::reads_back;
use pc_records::{lines_are_records, plain_lines_are_records};
use pc_rows::{reads_plain_fields, reads_plain_lines, reads_plain_text};

// The laws of all texts, rows and cases, of which the trials show some. Whoever reads or writes them can cite each.
#[test]
fn laws_can_be_cited(rt: HostRuntime) {
    lines_follow_the_grammar();
    questions_follow_the_grammar();
    quantiles_follow_the_grammar();
    parts_hold();
    ways_hold();
    reads_back();
    lines_are_records();
    plain_lines_are_records();
    reads_plain_fields();
    reads_plain_lines();
    reads_plain_text();
    generated_cases_are_accepted();
    hidden_rows_are_possible();
    assert!(rt; true, "each is cited");
}
