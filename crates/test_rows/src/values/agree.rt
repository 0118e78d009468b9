//! Whether a view shows a value, part by part.
use fb_read::{FixedView, Items, View};
use fb_value::Value;

/// How many of a slot's accessors find something: one where it has an entry, else none.
fn found_in(view: View, slot: u16) -> u8 {
    let found = [
        view.number(slot).is_some(),
        view.text(slot).is_some(),
        view.fixed(slot).is_some(),
        view.table(slot).is_some(),
        view.member(slot).is_some(),
        view.other(slot).is_some(),
        view.items(slot).is_some(),
    ];
    let mut count = 0u8;
    for is_found in found {
        count = count.saturating_add(u8::from(is_found));
    }
    count
}

/// Whether a view shows a value.
#[cycle(agree)]
pub(crate) fn table_agrees(view: View, value: &Value) -> bool {
    match value {
        Value::Fields(owner, entries) => {
            view.type_id() == *owner && entries_agree(view, entries)
        }
        _ => false,
    }
}

#[cycle(agree)]
fn entries_agree(view: View, entries: &Vec<Option<Value>>) -> bool {
    for k in 0..entries.len() {
        let Ok(slot) = u16::try_from(k) else {
            return false;
        };
        let agrees = match &entries[k] {
            None => found_in(view, slot) == 0,
            Some(value) => found_in(view, slot) == 1 && entry_agrees(view, slot, value),
        };
        if !agrees {
            return false;
        }
    }
    u16::try_from(entries.len()).is_ok_and(|behind| found_in(view, behind) == 0)
}

#[cycle(agree)]
fn entry_agrees(view: View, slot: u16, value: &Value) -> bool {
    match value {
        Value::Number(number) => view.number(slot) == Some(*number),
        Value::Text(text) => view.text(slot) == Some(text.as_str()),
        Value::Items(items) => match view.items(slot) {
            Some(found) => items_agree(found, items),
            None => false,
        },
        Value::Fixed(parts) => match view.fixed(slot) {
            Some(found) => parts_agree(found, parts),
            None => false,
        },
        Value::Fields(_, _) => match view.table(slot) {
            Some(found) => table_agrees(found, value),
            None => false,
        },
        Value::Member(code, member) => match view.member(slot) {
            Some((found_code, found)) => found_code == *code && table_agrees(found, member),
            None => false,
        },
        Value::Other(code) => view.other(slot) == Some(*code),
    }
}

#[cycle(agree)]
fn items_agree(found: Items, items: &Vec<Value>) -> bool {
    if found.count() as usize != items.len() {
        return false;
    }
    for i in 0..found.count() {
        if !item_agrees(found, i, &items[i as usize]) {
            return false;
        }
    }
    true
}

#[cycle(agree)]
fn item_agrees(found: Items, i: u32, item: &Value) -> bool {
    if i >= found.count() {
        return false;
    }
    match item {
        Value::Number(number) => found.number(i) == Some(*number),
        Value::Text(text) => found.text(i) == Some(text.as_str()),
        Value::Fixed(parts) => match found.fixed(i) {
            Some(part) => parts_agree(part, parts),
            None => false,
        },
        Value::Fields(_, _) => match found.table(i) {
            Some(table) => table_agrees(table, item),
            None => false,
        },
        _ => false,
    }
}

#[cycle(parts)]
fn parts_agree(found: FixedView, parts: &Vec<Value>) -> bool {
    for k in 0..parts.len() {
        let Ok(field) = u16::try_from(k) else {
            return false;
        };
        let agrees = match &parts[k] {
            Value::Number(number) => found.number(field) == Some(*number),
            Value::Fixed(inner) => match found.fixed(field) {
                Some(part) => parts_agree(part, inner),
                None => false,
            },
            _ => false,
        };
        if !agrees {
            return false;
        }
    }
    true
}
