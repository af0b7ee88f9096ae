//! The texts of the faults of texts, requests and selections.

use std::alloc::{AllocError, Global};
use wc_json::{JsonFault, Problem};
use wc_lines::lines::Lines;
use wc_lines::put_last::put_last_fault;
use wc_lines::values::put_fault_text;
use wc_selection::RequestFault;
use wcplan_inputs::SelectionFault;

const PROBLEMS: [Problem; 11] = [
    Problem::Missing,
    Problem::NotAnObject,
    Problem::NotOneMember,
    Problem::NotAList,
    Problem::NotAText,
    Problem::NotAnIndex,
    Problem::Unknown,
    Problem::LeftOut,
    Problem::Outdated,
    Problem::NotAPackageName,
    Problem::NotABool,
];

/// Of each problem its own text, that without a path, and that with one.
pub(crate) fn put_json_faults(alloc: Global, out: &mut Lines) -> Result<(), AllocError> {
    put_last_fault(alloc, JsonFault::Memory, out);
    put_last_fault(alloc, JsonFault::NotJson, out);
    put_last_fault(alloc, JsonFault::RepeatedMember, out);
    for problem in PROBLEMS {
        put_fault_text(alloc, &problem, out);
        put_wrong(alloc, "", problem, out)?;
        put_wrong(alloc, "worlds[0].name", problem, out)?;
    }
    Ok(())
}

fn put_wrong(
    alloc: Global,
    path: &str,
    problem: Problem,
    out: &mut Lines,
) -> Result<(), AllocError> {
    let path = String::from_str(alloc, path)?;
    put_last_fault(alloc, JsonFault::Wrong { path, problem }, out);
    Ok(())
}

pub(crate) fn put_request_faults(alloc: Global, out: &mut Lines) {
    put_fault_text(alloc, &RequestFault::Memory, out);
    put_fault_text(alloc, &RequestFault::PackageRange, out);
    put_fault_text(alloc, &RequestFault::UnknownWorld("a:b/w"), out);
    put_fault_text(alloc, &RequestFault::SeveralWorlds("a`b"), out);
    put_fault_text(alloc, &RequestFault::UnknownKey(""), out);
    put_fault_text(alloc, &RequestFault::SeveralKeys("k"), out);
    put_fault_text(alloc, &RequestFault::RepeatedKey("k"), out);
}

pub(crate) fn put_selection_faults(alloc: Global, out: &mut Lines) {
    put_fault_text(alloc, &SelectionFault::Memory, out);
    let request = RequestFault::RepeatedKey("k");
    put_fault_text(alloc, &SelectionFault::Request(request), out);
    put_fault_text(alloc, &SelectionFault::RepeatedAdapter("a"), out);
    put_fault_text(alloc, &SelectionFault::UnknownAdapter(""), out);
    put_fault_text(alloc, &SelectionFault::EmptyDirectory, out);
    put_fault_text(alloc, &SelectionFault::FileName("../a"), out);
    put_fault_text(alloc, &SelectionFault::MainFile("main"), out);
}
