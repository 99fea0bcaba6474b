// What could stand at a place, in words.

use crate::classes::{begins_operand, is_operator, symbol_text};
use crate::words::{Detail, push_quoted};
use dk_base::OutOfMemory;
use dk_lexer::Symbol;
use expected_tokens::TokenClass;
use source_words::Keyword;
use std::alloc::Global;

// The most classes that a list names.
const MOST_NAMED: usize = 8;

const EDGE: TokenClass = TokenClass::Keyword(Keyword::Edge);

// A part of the list.
#[derive(Clone, Copy)]
enum Item {
    Expression,
    // What a sign is followed by.
    Unsigned,
    Class(TokenClass),
    Operator,
    // An operator where another one was found.
    OtherOperator,
}

// Whether an operand may begin there.
fn has_operand(classes: &[TokenClass]) -> bool {
    classes.contains(&TokenClass::Name) && classes.contains(&TokenClass::Number)
}

// Whether an operator may stand there.
fn has_operator(classes: &[TokenClass]) -> bool {
    classes.contains(&TokenClass::Symbol(Symbol::Bar))
}

// Whether the class is named by itself, in its place. `edge` comes after what may stand there whatever is before it.
fn is_named(classes: &[TokenClass], class: TokenClass) -> bool {
    !(has_operand(classes) && begins_operand(class))
        && !(has_operator(classes) && (is_operator(class) || class == EDGE))
}

// The word of an expression.
fn expression(classes: &[TokenClass]) -> Item {
    if classes.contains(&TokenClass::Symbol(Symbol::Minus)) {
        Item::Expression
    } else {
        Item::Unsigned
    }
}

// The classes that are named by themselves, and words for the others.
fn items(
    alloc: Global,
    classes: &[TokenClass],
    found: TokenClass,
) -> Result<Vec<Item>, OutOfMemory> {
    let mut items = Vec::new(alloc);
    if has_operand(classes) {
        items.push(expression(classes))?;
    }
    for class in classes {
        if is_named(classes, *class) && items.len() < MOST_NAMED {
            items.push(Item::Class(*class))?;
        }
    }
    if has_operator(classes) {
        if classes.contains(&EDGE) {
            items.push(Item::Class(EDGE))?;
        }
        items.push(if is_operator(found) {
            Item::OtherOperator
        } else {
            Item::Operator
        })?;
    }
    Ok(items)
}

// Adds a class.
fn push_class(to: &mut Detail, class: TokenClass) {
    match class {
        TokenClass::Type => to.push("a type"),
        TokenClass::Name => to.push("a name"),
        TokenClass::Number => to.push("a number"),
        TokenClass::EndOfText => to.push("the end of the text"),
        TokenClass::Keyword(keyword) => push_quoted(to, keyword.spelling().as_bytes()),
        TokenClass::Symbol(symbol) => push_quoted(to, symbol_text(symbol).as_bytes()),
    }
}

fn push_item(to: &mut Detail, item: Item) {
    match item {
        Item::Expression => to.push("an expression"),
        Item::Unsigned => to.push("an operand without a sign"),
        Item::Operator => to.push("an operator"),
        Item::OtherOperator => to.push("another operator"),
        Item::Class(class) => push_class(to, class),
    }
}

// What is before an item of a list of this length.
fn separator(place: usize, length: usize) -> &'static str {
    if place == 0 {
        ""
    } else if place.saturating_add(1) < length {
        ", "
    } else {
        " or "
    }
}

// Adds items, as `a, b or c`.
fn push_items(to: &mut Detail, items: &[Item]) {
    for (place, item) in items.iter().enumerate() {
        to.push(separator(place, items.len()));
        push_item(to, *item);
    }
}

/// Adds what could stand at a place in place of what was found, as `a, b or c`.
pub(crate) fn push_expected(
    to: &mut Detail,
    alloc: Global,
    classes: &[TokenClass],
    found: TokenClass,
) {
    match items(alloc, classes, found) {
        Ok(items) => push_items(to, &items),
        Err(_) => to.fail(),
    }
}
