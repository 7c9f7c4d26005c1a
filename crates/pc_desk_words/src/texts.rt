//! What help says.

pub(crate) const ABOUT: &str = "What a query can come to where rows of a table are missing";

pub(crate) const AFTER: &str =
    "'pc_desk help ask' and 'pc_desk ask --help' say how a verb is called.";

/// What stands below the help of a verb.
macro_rules! after {
    ($forms:expr, $statuses:expr, $refused:literal, $example:literal) => {
        concat!(
            "\
Forms of --as:
  text   lines to read, columns aligned
",
            $forms,
            "
Statuses:
",
            $statuses,
            "  3  ",
            $refused,
            " are refused
  4  a file could not be read
  5  the answer could not be written
  6  memory ran out

Example:
  pc_desk ",
            $example,
        )
    };
}

/// What stands below the help of a verb whose output has one form.
macro_rules! after_written {
    ($statuses:literal, $refused:literal, $example:literal) => {
        concat!(
            "\
Statuses:
",
            $statuses,
            "  3  ",
            $refused,
            " are refused
  4  a file could not be read
  5  the answer could not be written
  6  memory ran out

Example:
  pc_desk ",
            $example,
        )
    };
}

/// Below `ask` and `session`.
macro_rules! after_answers {
    ($refused:literal, $example:literal) => {
        after!(
            "  table  CSV, a record for each answer
  json   JSON, with the rows that reach each end
  chart  bars of characters, for a terminal
  svg    a picture
",
            "  0  all answers are settled
  1  an end is only known from outside, or a line is undecided
  2  the constraints are impossible
",
            $refused,
            $example
        )
    };
}

/// Below `why` and `weigh`.
macro_rules! after_reasons {
    ($each:literal, $picture:literal, $ends:literal, $constraints:literal, $refused:literal, $example:literal) => {
        after!(
            concat!(
                "  table  CSV, a record for each ",
                $each,
                "
  json   JSON, an object for each ",
                $each,
                "
  svg    a picture: ",
                $picture,
                "
",
            ),
            concat!(
                "  0  all ends are ",
                $ends,
                "
  1  an end is only known from outside, or a line is undecided
  2  the ",
                $constraints,
                " are impossible
",
            ),
            $refused,
            $example
        )
    };
}

/// Below `try` and `opens`.
macro_rules! after_findings {
    ($statuses:literal, $example:literal) => {
        after!(
            "  table  the same as CSV
  json   the same as JSON
",
            $statuses,
            "words or a file",
            $example
        )
    };
}

pub(crate) const ASK_ABOUT: &str = "Answer queries: the range that each can lie in";

pub(crate) const ASK_AFTER: &str = after_answers!(
    "words, a file or a query",
    "ask --as table sales.schema sales.csv lost.pc 'sum(price) where day in 1..3' 'avg(price) group by branch'"
);

pub(crate) const SESSION_ABOUT: &str =
    "Answer the questions of a script that edits rows and constraints";

pub(crate) const SESSION_AFTER: &str = after_answers!(
    "words, a file or a line",
    "session --as json sales.schema sales.csv lost.pc edits.script"
);

pub(crate) const WHY_ABOUT: &str =
    "Tell what each end of an answer is made of, and what keeps it from lying further out";

pub(crate) const WHY_AFTER: &str = after_reasons!(
    "part of an end",
    "of counts and sums, the parts as pieces of a bar",
    "made of the parts that are shown",
    "constraints",
    "words, a file or a query",
    "why sales.schema sales.csv lost.pc 'sum(price) where day in 1..3'"
);

pub(crate) const WEIGH_ABOUT: &str =
    "Tell how each change of one limit moves the range: which guess is worth verifying";

pub(crate) const WEIGH_AFTER: &str = after_reasons!(
    "change",
    "bars round the range that stands",
    "known",
    "constraints as they stand",
    "words, a file, a query or the name of --by",
    "weigh --sort sales.schema sales.csv lost.pc 'sum(price)'"
);

pub(crate) const TRY_ABOUT: &str =
    "Hold constraints against a table: what each speaks of in it, and what breaks it";

pub(crate) const TRY_AFTER: &str = after_findings!(
    "  0  nothing is broken, and every number of rows is within its limits
  1  a row breaks a constraint, or a number of rows is not within its limits
",
    "try --scale 0.05 sales.schema lost.pc history.csv"
);

pub(crate) const OPENS_ABOUT: &str =
    "Show which rows the constraints let be lost, by which of them speak of the rows";

pub(crate) const OPENS_AFTER: &str = after_findings!(
    "  0  it is written
",
    "opens sales.schema lost.pc"
);

pub(crate) const HISTORY_ABOUT: &str =
    "Draft constraints from the rows of a time before the loss, or of the rows that are left";

pub(crate) const HISTORY_AFTER: &str = after_written!(
    "  0  it is written
",
    "words, a file, more than 20 cells or a draft of no row",
    "history sales.schema 2025.csv --by branch,price/3 --per month --widen 10"
);

pub(crate) const LIMIT_ABOUT: &str =
    "Write constraints with lines that limit and do not open: no row may be lost by them alone";

pub(crate) const LIMIT_AFTER: &str = after_written!(
    "  0  it is written
",
    "words, a file or what would be written",
    "limit sales.schema lost.pc narrow.pc > both.pc"
);

pub(crate) const SCHEMA_ABOUT: &str =
    "Draft a schema for a table, and tell which columns have none";

pub(crate) const SCHEMA_AFTER: &str = after_written!(
    "  0  all columns that are wanted are drafted
  1  a column is left out: it is told on standard error
",
    "words, a file or a table of which no column fits",
    "schema sales.csv day branch price > sales.schema"
);

pub(crate) const SQL_ABOUT: &str =
    "Write a statement of SQL that holds constraints against a table of a database";

pub(crate) const SQL_AFTER: &str = after_written!(
    "  0  it is written
",
    "words or a file",
    "sql sales.schema lost.pc sales | sqlite3 sales.db"
);

pub(crate) const HISTORY_ROWS: &str =
    "the row file (CSV): rows of a time before the loss, or those that are left";

pub(crate) const DIVISION: &str = "\
what divides the rows into cells: columns of names, and of numbers in so many parts, such as branch,price/3";

pub(crate) const WHERE: &str =
    "which rows are meant, such as 'day in 1..3'; all where it is not said";

pub(crate) const PER: &str = "the column of the periods; all rows are of one where none is named";

pub(crate) const WIDEN: &str = "by how many per cent limits are widened, 0 to 1000";

pub(crate) const LOST: &str = "how many rows are lost, 1 to 10000000";

pub(crate) const LIMITS: &str = "the limits: lines as constraints have them";

pub(crate) const TABLE: &str = "the table in the database, such as sales or audit.sales";

pub(crate) const SCHEMA_ROWS: &str = "the row file (CSV), with a header";

pub(crate) const COLUMN: &str = "a column that is wanted; all of the header where none is named";

pub(crate) const SCHEMA: &str = "the schema file: a line for each column";

pub(crate) const ROWS: &str = "the row file (CSV): the rows that are left";

pub(crate) const CONSTRAINTS: &str = "the constraint file: what the lost rows could have been";

pub(crate) const TRY_ROWS: &str = "the row file (CSV) of a table that should keep the constraints";

pub(crate) const QUERY: &str = "\
what is asked, such as 'sum(price) where day in 1..3', 'avg(price) group by branch', 'median(price)'";

pub(crate) const SCRIPT: &str = "a script of edits and questions, a line each";

pub(crate) const AS: &str = "how answers are shown: text, table, json, chart or svg";

pub(crate) const NODES: &str = "how many nodes each search may have, 1 to 100000";

pub(crate) const DRAWN_AS: &str = "how it is shown: text, table, json or svg";

pub(crate) const BY: &str = "weigh the changes of this constraint alone";

pub(crate) const SORT: &str = "put first what moves the range most";

pub(crate) const SHEET_AS: &str = "how what is found is shown: text, table or json";

pub(crate) const SCALE: &str = "what each number of rows is multiplied by, 0.000001 to 1000000";

/// Said of a factor that is none, as `clap` says it of a value.
pub(crate) const NO_SCALE: &str = "\
error: invalid value for '--scale <FACTOR>': a decimal from 0.000001 to 1000000 with at most six decimals

For more information, try '--help'.
";
