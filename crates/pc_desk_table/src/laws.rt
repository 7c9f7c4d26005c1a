ghost use Rattle.std.specs.Prelude.{◌≤◌, All, List};
ghost use Rattle.pc_desk_table.specs.declared.columns.Column.{Column};
ghost use Rattle.pc_desk_table.specs.declared.entry.Entry.{Entry};
ghost use Rattle.pc_desk_table.specs.declared.sheet.Sheet.{Sheet};
ghost use Rattle.pc_desk_table.specs.Lines.{cell, text_width, title, widest};
ghost use Rattle.pc_desk_table.specs.Reading.{IsReadAs, IsSheet, records_of, sheet_rows};
ghost use Rattle.pc_desk_table.specs.Sheets.{sheet_table};
ghost use Rattle.pc_desk_table.specs.Table.{table_text};

/// What csv reads in a table is the names of its columns and then the fields of each entry.
#[tactic(auto, using(crate::proofs::TableBack::tables_are_read_back))]
pub fn tables_are_read_back()
    ensures { (entries : List Entry) → IsReadAs (table_text entries) (records_of entries) }
{}

/// What csv reads in the table of a sheet is its titles and then the texts of each row.
#[tactic(auto, using(crate::proofs::SheetBack::sheets_are_read_back))]
pub fn sheets_are_read_back()
    ensures { (sheet : Sheet) → IsSheet sheet → IsReadAs (sheet_table sheet) (sheet_rows sheet) }
{}

/// No text is wider than its column, so that with its spaces each takes the same width in all lines.
#[tactic(auto, using(crate::proofs::Fitting::texts_fit))]
pub fn texts_fit_their_columns()
    ensures { (column : Column) (entries : List Entry) → (text_width (title column) ≤ widest column entries)
        × All (λ entry. text_width (cell column entry) ≤ widest column entries) entries }
{}
