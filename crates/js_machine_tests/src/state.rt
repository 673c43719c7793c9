//! The room of a heap, the input and the output.

use cdp_text::units::{Units, text_of, units_of};
use js_heap::change::Counted;
use js_heap_memory::heap::BaseHeap;
use js_heap_memory::names::NameTable;
use js_heap_memory::start::add_built_in_names;
use js_heap_memory::stored::Stored;
use js_heap_memory::world::{Refused, World};
use js_machine_actions::context::Context;
use std::alloc::{AllocError, Global};
use std::collections::VecDeque;
use std::test::Fail;

/// The heap of a program without literals.
fn heap(alloc: Global) -> Result<BaseHeap, AllocError> {
    let mut names = NameTable::new(alloc);
    add_built_in_names(alloc, &mut names)?;
    BaseHeap::start(alloc, &names, &[])
}

/// The cell of a text of so many units.
fn text(alloc: Global, count: usize) -> Result<Stored, AllocError> {
    let mut units = Vec::new(alloc);
    for _ in 0..count {
        units.push(97)?;
    }
    Ok(Stored::Text {
        units: Units::from_vec(units),
    })
}

/// Makes the cell of a text, and tells what refuses it.
fn refusal(
    alloc: Global,
    heap: &mut BaseHeap,
    count: usize,
) -> Result<Option<Refused>, AllocError> {
    Ok(heap.make(text(alloc, count)?).err())
}

#[test]
fn holds_so_many_units(rt: HostRuntime) -> Result<(), Fail> {
    let alloc = rt.alloc();
    let mut heap = heap(alloc)?;
    assert_eq!(rt; refusal(alloc, &mut heap, 67_108_863)?, None);
    assert_eq!(rt;
        refusal(alloc, &mut heap, 2)?,
        Some(Refused::Full(Counted::Units))
    );
    assert_eq!(rt; refusal(alloc, &mut heap, 1)?, None);
    Ok(())
}

#[test]
fn holds_so_many_cells(rt: HostRuntime) -> Result<(), Fail> {
    let alloc = rt.alloc();
    let mut heap = heap(alloc)?;
    for _ in 0..1_048_576 {
        assert_eq!(rt; refusal(alloc, &mut heap, 0)?, None);
    }
    assert_eq!(rt;
        refusal(alloc, &mut heap, 0)?,
        Some(Refused::Full(Counted::Cells))
    );
    Ok(())
}

/// Texts, each in a line.
pub(crate) fn lines_of(alloc: Global, texts: &[Units]) -> Result<String, AllocError> {
    let mut lines = String::new(alloc);
    for units in texts {
        lines.push_str(&text_of(alloc, units.as_slice())?)?;
        lines.push('\n')?;
    }
    Ok(lines)
}

#[test]
fn prints_the_lines_that_it_takes(rt: HostRuntime) -> Result<(), Fail> {
    let alloc = rt.alloc();
    let names = NameTable::new(alloc);
    let heap = heap(alloc)?;
    let mut input = VecDeque::new(alloc);
    for line in ["one", "", "three"] {
        input.push_back(units_of(alloc, line)?)?;
    }
    let mut context = Context::start(alloc, input)?;
    for _ in 0..4 {
        if let Ok(Some(line)) = context.take_line(&heap, &names) {
            let printed = context.print(&heap, &names, line);
            assert!(rt; printed.is_ok());
        }
    }
    assert_eq!(rt;
        lines_of(alloc, context.printed())?.as_str(),
        "one\n\nthree\n"
    );
    Ok(())
}
