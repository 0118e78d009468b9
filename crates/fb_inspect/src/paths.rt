//! The path from the root to what is shown, by the names of the schema.
use crate::nodes::Nodes;
use fb_explain_pages::Page;
use fb_layout::Layout;
use fb_read::Step;
use fb_schema::field_at;
use itoa::Buffer;
use std::alloc::{AllocError, Global};

// How many characters of a path are shown: its end.
const LONGEST_PATH: usize = 48;

/// What is shown of: a buffer's bytes under their layout, and its parts.
#[derive(Clone, Copy)]
pub(crate) struct Scene<'s> {
    pub alloc: Global,
    pub layout: &'s Layout,
    pub bytes: &'s [u8],
    pub nodes: &'s Nodes,
}

/// Adds a step: a field's name after a dot, or a number in brackets.
fn put_step(path: &mut String, layout: &Layout, step: Step) -> Result<(), AllocError> {
    match step {
        Step::Reference => {}
        Step::Slot(owner, slot) => {
            if !path.is_empty() {
                path.push('.')?;
            }
            match field_at(layout.schema(), owner, slot) {
                Some(field) => path.push_str(field.name.as_str())?,
                None => path.push('?')?,
            }
        }
        Step::Element(index) => {
            path.push('[')?;
            path.push_str(Buffer::new().format(index))?;
            path.push(']')?
        }
    }
    Ok(())
}

/// The path of steps, the last one of which comes first.
pub(crate) fn path_back(
    alloc: Global,
    layout: &Layout,
    steps: &[Step],
) -> Result<String, AllocError> {
    let mut path = String::new(alloc);
    for step in steps.iter().rev() {
        put_step(&mut path, layout, *step)?;
    }
    if path.is_empty() {
        path.push_str("root")?;
    }
    Ok(path)
}

/// The path to a part, and a step further.
pub(crate) fn path_of(scene: Scene<'_>, node: u32, last: Step) -> Result<String, AllocError> {
    let steps = scene.nodes.steps_back(scene.alloc, node, last)?;
    path_back(scene.alloc, scene.layout, steps.as_slice())
}

/// Adds a path, of a long one three dots and its end.
pub(crate) fn push_cut_path(page: &mut Page, path: &str) {
    match path.len().checked_sub(LONGEST_PATH) {
        Some(from) if from > 0 => {
            page.line.push_str("...");
            page.line.push_str(path.get(from..).unwrap_or(path));
        }
        _ => page.line.push_str(path),
    }
}

/// Adds the path to a part and a step further.
pub(crate) fn push_path(page: &mut Page, scene: Scene<'_>, node: u32, last: Step) {
    let path = path_of(scene, node, last);
    if let Some(path) = page.line.keep(path) {
        push_cut_path(page, path.as_str());
    }
}
