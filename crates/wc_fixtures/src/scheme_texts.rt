//! The texts of a scheme.

use crate::shown_names::put_name;
use wc_lines::lines::Lines;
use wc_names::NameMangling;

fn put_text(out: &mut Lines, word: &str, text: &str) {
    out.push_str(word);
    put_name(out, text);
    out.push('\n');
}

/// A line for each text of a scheme; those that it may lack come last.
pub(crate) fn put_scheme<N: NameMangling>(scheme: &N, out: &mut Lines) {
    let texts = [
        ("import_root ", scheme.import_root()),
        ("import_non_root_prefix ", scheme.import_non_root_prefix()),
        (
            "import_exported_intrinsic_prefix ",
            scheme.import_exported_intrinsic_prefix(),
        ),
        ("export_memory ", scheme.export_memory()),
        ("export_initialize ", scheme.export_initialize()),
        ("export_realloc ", scheme.export_realloc()),
    ];
    for (word, text) in texts {
        put_text(out, word, text);
    }
    let optional = [
        (
            "export_indirect_function_table ",
            scheme.export_indirect_function_table(),
        ),
        ("export_wasm_task_hook ", scheme.export_wasm_task_hook()),
    ];
    put_optional(out, &optional);
}

/// Texts, or `none`, a line each.
fn put_optional(out: &mut Lines, texts: &[(&str, Option<&str>)]) {
    for (word, text) in texts {
        match text {
            Some(text) => put_text(out, word, text),
            None => writeln!(out, "{word}none"),
        }
    }
}
