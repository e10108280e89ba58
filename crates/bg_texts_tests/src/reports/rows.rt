//! What is told programs of files that were judged, in rows.
use super::told;
use crate::checks::check_told;
use bg_reports::{RowForm, check_row};
use std::alloc::Global;
use std::process::Abort;

/// A file, and its rows in both forms. The identifiers are those that GNU Backgammon gives.
struct Told {
    name: &'static str,
    bytes: &'static str,
    tsv: &'static str,
    json: &'static str,
}

static ROWS: [Told; 5] = [
    Told {
        name: "a/file",
        bytes: "length 7\n",
        tsv: "a/file\ttranscript\tok\t\t\t\t0\t7\t1\t0\t0\t1\t\tin game\t4HPwATDgc/ABMA\tcAjgAAAAAAAE\t\tFine(0)",
        json: "{\"file\":\"a/file\",\"kind\":\"transcript\",\"verdict\":\"ok\",\"entries\":0,\"length\":7,\"rules\":1,\"x\":0,\"o\":0,\"game\":1,\"state\":\"in game\",\"position_id\":\"4HPwATDgc/ABMA\",\"match_id\":\"cAjgAAAAAAAE\"Fine(0)",
    },
    Told {
        name: "b.mat",
        bytes: " 1 point match\n Game 1\n A : 0 B : 0\n 1) 61:\n",
        tsv: "b.mat\tmatch file\tok\t\t\t\t1\t1\t1\t0\t0\t1\t\tcut\t4HPwATDgc/ABMA\tcAknAAAAAAAE\tXGID=-b----E-C---eE---c-e----B-:0:0:1:61:0:0:0:1:7\tFine(1)",
        json: "{\"file\":\"b.mat\",\"kind\":\"match file\",\"verdict\":\"ok\",\"entries\":1,\"length\":1,\"rules\":1,\"x\":0,\"o\":0,\"game\":1,\"state\":\"cut\",\"position_id\":\"4HPwATDgc/ABMA\",\"match_id\":\"cAknAAAAAAAE\",\"xgid\":\"XGID=-b----E-C---eE---c-e----B-:0:0:1:61:0:0:0:1:7\"Fine(1)",
    },
    Told {
        name: "c \"d\"",
        bytes: "say \"hi\" \\\t",
        tsv: "c \"d\"\ttranscript\trefused\t1\tnot a length line\tsay \"hi\" \\\\\\t\t\t\t\t\t\t\t\t\t\t\t\tRefused(1)",
        json: "{\"file\":\"c \\\"d\\\"\",\"kind\":\"transcript\",\"verdict\":\"refused\",\"line\":1,\"reason\":\"not a length line\",\"text\":\"say \\\"hi\\\" \\\\\\\\\\\\t\"Refused(1)",
    },
    Told {
        name: "empty.mat",
        bytes: "",
        tsv: "empty.mat\tmatch file\trefused\t1\tno length of the match\t\t\t\t\t\t\t\t\t\t\t\t\tRefused(1)",
        json: "{\"file\":\"empty.mat\",\"kind\":\"match file\",\"verdict\":\"refused\",\"line\":1,\"reason\":\"no length of the match\",\"text\":\"\"Refused(1)",
    },
    Told {
        name: "won.mat",
        bytes: "length 2\nopen 1 3\nO resign backgammon\nX accept\n",
        tsv: "won.mat\ttranscript\tok\t\t\t\t3\t2\t1\t3\t0\t1\tX\tover\t",
        json: "{\"file\":\"won.mat\",\"kind\":\"transcript\",\"verdict\":\"ok\",\"entries\":3,\"length\":2,\"rules\":1,\"x\":3,\"o\":0,\"game\":1,\"winner\":\"X\",\"state\":\"over\",",
    },
];

/// The row of a file in a form begins so, and the verdict stands behind it.
fn check_form(rt: &impl Abort, alloc: Global, row: &Told, form: RowForm, wanted: &str) {
    let row_told = check_row(alloc, form, row.name, row.bytes.as_bytes());
    let told = told(alloc, row_told).expect(rt, "memory");
    let start = told.get(..wanted.len()).unwrap_or(told.as_str());
    check_told(rt, row.name, start, wanted);
}

#[test]
fn rows_of_files(rt: HostRuntime) {
    for row in &ROWS {
        check_form(&rt, rt.alloc(), row, RowForm::Tsv, row.tsv);
        check_form(&rt, rt.alloc(), row, RowForm::Json, row.json);
    }
}
