//! Every expression of up to four conditions, each a parameter, with `&&`, `||` and at most one `!`
//! at each node, on its whole truth table, against values and vectors that are put together here
//! from those of the operands.

use crate::run::{HEADER, gives, plain};
use crate::text::push;
use std::alloc::Global;
use std::thread::Threads;
use tests_memory::Fail;

/// A node of an expression: a condition, or the operator that joins the two parts before it.
#[derive(Clone, Copy)]
struct Node {
    is_leaf: bool,
    negated: bool,
    conjunction: bool,
}

/// The nodes of a shape, in which `l` is a condition and a dot an operator, by the bits of a
/// choice.
fn nodes_of(alloc: Global, shape: &str, choice: u32) -> Result<Vec<Node>, Fail> {
    let mut nodes = Vec::new(alloc);
    let mut bits = choice;
    for symbol in shape.as_bytes() {
        let is_leaf = *symbol == b'l';
        nodes.push(Node {
            is_leaf,
            negated: bits % 2 == 1,
            conjunction: bits / 2 % 2 == 1,
        })?;
        bits /= if is_leaf { 2 } else { 4 };
    }
    Ok(nodes)
}

/// The last two parts with an operator between them, in parentheses.
fn joined_text(
    alloc: Global,
    conjunction: bool,
    left: Option<String>,
    right: Option<String>,
) -> Result<String, Fail> {
    let (Some(left), Some(right)) = (left, right) else {
        return Err(Fail);
    };
    let operator = if conjunction { "&&" } else { "||" };
    let text = format!(in alloc; "({left}{operator}{right})");
    drop(left);
    drop(right);
    Ok(text?)
}

/// The text of a node; a condition has this name.
fn node_text(
    alloc: Global,
    node: Node,
    name: &str,
    parts: &mut Vec<String>,
) -> Result<String, Fail> {
    let negation = if node.negated { "!" } else { "" };
    if node.is_leaf {
        return Ok(format!(in alloc; "{negation}{name}")?);
    }
    let right = parts.pop();
    let left = parts.pop();
    let joined = joined_text(alloc, node.conjunction, left, right)?;
    let text = format!(in alloc; "{negation}{joined}");
    drop(joined);
    Ok(text?)
}

/// The name of the next condition, where there were this number of conditions before it.
fn name_of(before: u32) -> &'static str {
    match before {
        0 => "a",
        1 => "b",
        2 => "c",
        _ => "d",
    }
}

/// The text of an expression, whose conditions are `a`, `b` and so on.
fn text_of(alloc: Global, nodes: &[Node]) -> Result<String, Fail> {
    let mut leaves = 0u32;
    let mut parts = Vec::new(alloc);
    for node in nodes {
        let text = node_text(alloc, *node, name_of(leaves), &mut parts)?;
        parts.push(text)?;
        if node.is_leaf {
            leaves = leaves.saturating_add(1);
        }
    }
    parts.pop().ok_or(Fail)
}

/// The answers of up to four conditions, and nothing after the last.
type Answers = [&'static str; 4];

/// What a part of an expression gives on a row: an answer for each of its conditions, and its
/// value.
#[derive(Clone, Copy)]
struct Part {
    answers: Answers,
    count: usize,
    value: bool,
}

fn letter(value: bool) -> &'static str {
    if value { "T" } else { "F" }
}

/// The part with one answer more.
fn with_answer(part: Part, answer: &'static str) -> Part {
    let mut part = part;
    let count = part.count;
    if count < 4 {
        part.answers[count] = answer;
        part.count = count + 1;
    }
    part
}

fn condition(value: bool) -> Part {
    Part {
        answers: [letter(value), "", "", ""],
        count: 1,
        value,
    }
}

/// The right operand is evaluated exactly where the left one does not decide.
fn joined_part(conjunction: bool, left: Part, right: Part) -> Part {
    let is_evaluated = left.value == conjunction;
    let mut part = left;
    for answer in right.answers.iter().take(right.count) {
        part = with_answer(part, if is_evaluated { *answer } else { "-" });
    }
    if is_evaluated {
        part.value = right.value;
    }
    part
}

/// What a node gives, from the parts before it.
fn node_part(node: Node, value: bool, parts: &mut Vec<Part>) -> Option<Part> {
    let mut part = if node.is_leaf {
        condition(value)
    } else {
        let right = parts.pop()?;
        let left = parts.pop()?;
        joined_part(node.conjunction, left, right)
    };
    part.value = part.value != node.negated;
    Some(part)
}

/// What an expression gives on a row, whose lowest bit is the value of the first condition.
fn part_of(alloc: Global, nodes: &[Node], row: u32) -> Result<Part, Fail> {
    let mut values = row;
    let mut parts = Vec::new(alloc);
    for node in nodes {
        let Some(part) = node_part(*node, values % 2 == 1, &mut parts) else {
            return Err(Fail);
        };
        parts.push(part)?;
        if node.is_leaf {
            values /= 2;
        }
    }
    parts.pop().ok_or(Fail)
}

fn all_parts(alloc: Global, nodes: &[Node]) -> Result<Vec<Part>, Fail> {
    let mut parts = Vec::new(alloc);
    for row in 0..16 {
        parts.push(part_of(alloc, nodes, row)?)?;
    }
    Ok(parts)
}

/// The test of each row.
fn all_tests(alloc: Global) -> Result<String, Fail> {
    let mut tests = String::from_str(alloc, HEADER)?;
    for row in 0..16u32 {
        let (a, b, c, d) = (row % 2, row / 2 % 2, row / 4 % 2, row / 8);
        push(
            &mut tests,
            format!(in alloc; "t{row},f,{a} {b} {c} {d},,,\n"),
        )?;
    }
    Ok(tests)
}

/// The answer that the lowest digit to the base 3 stands for.
fn answer_of(number: u32) -> &'static str {
    match number % 3 {
        0 => "T",
        1 => "F",
        _ => "-",
    }
}

/// The vector with this number, of a decision with these conditions. Vectors are numbered in order.
fn vector_of(conditions: u32, number: u32) -> Answers {
    match conditions {
        1 => [answer_of(number), "", "", ""],
        2 => [answer_of(number / 3), answer_of(number), "", ""],
        3 => [
            answer_of(number / 9),
            answer_of(number / 3),
            answer_of(number),
            "",
        ],
        _ => [
            answer_of(number / 27),
            answer_of(number / 9),
            answer_of(number / 3),
            answer_of(number),
        ],
    }
}

fn is_vector(part: &Part, vector: &Answers) -> bool {
    part.answers
        .iter()
        .zip(vector)
        .all(|(one, other)| *one == *other)
}

/// Adds the line of a vector and of the first row with it, where there is one.
fn push_vector(
    alloc: Global,
    out: &mut String,
    parts: &[Part],
    vector: Answers,
) -> Result<(), Fail> {
    for (row, part) in parts.iter().enumerate() {
        if is_vector(part, &vector) {
            let [a, b, c, d] = vector;
            let outcome = letter(part.value);
            return push(
                out,
                format!(in alloc; "D1 {a}{b}{c}{d}={outcome} by t{row}\n"),
            );
        }
    }
    Ok(())
}

fn test_lines(alloc: Global, parts: &[Part]) -> Result<String, Fail> {
    let mut out = String::new(alloc);
    for (row, part) in parts.iter().enumerate() {
        let value = u8::from(part.value);
        push(
            &mut out,
            format!(in alloc; "test t{row} pass values {value} output\n"),
        )?;
    }
    Ok(out)
}

/// The lines of the tests, and those of as many vectors where the expression is a decision.
fn lines_of(alloc: Global, nodes: &[Node], conditions: u32, vectors: u32) -> Result<String, Fail> {
    let parts = all_parts(alloc, nodes)?;
    let mut out = test_lines(alloc, &parts)?;
    for number in 0..vectors {
        push_vector(alloc, &mut out, &parts, vector_of(conditions, number))?;
    }
    Ok(out)
}

/// Expressions of one shape: how many conditions and vectors they have, how many choices of
/// operators.
#[derive(Clone, Copy)]
struct Shape {
    text: &'static str,
    conditions: u32,
    vectors: u32,
    choices: u32,
}

/// Whether a run of an expression writes these lines.
fn writes<R: Threads + Sync>(
    rt: &R,
    alloc: Global,
    text: &str,
    tests: &str,
    out: &str,
) -> Result<bool, Fail> {
    let source = format!(in alloc; "int f(int a,int b,int c,int d){{return {text};}}")?;
    let setting = plain(source.as_bytes(), tests.as_bytes());
    let is_wanted = gives(rt, alloc, &setting, (0, out.as_bytes(), b""));
    drop(source);
    is_wanted
}

/// Whether a run of the expression gives the lines of its truth table.
fn is_reported<R: Threads + Sync>(
    rt: &R,
    alloc: Global,
    nodes: &[Node],
    tests: &str,
    shape: Shape,
) -> Result<bool, Fail> {
    let text = text_of(alloc, nodes)?;
    // a condition alone is no decision
    let vectors = if text.as_str() == "a" {
        0
    } else {
        shape.vectors
    };
    let out = lines_of(alloc, nodes, shape.conditions, vectors)?;
    let is_wanted = writes(rt, alloc, text.as_str(), tests, out.as_str());
    drop(out);
    drop(text);
    is_wanted
}

/// Whether all expressions of a shape are reported so.
fn are_reported<R: Threads + Sync>(
    rt: &R,
    alloc: Global,
    tests: &str,
    shape: Shape,
) -> Result<bool, Fail> {
    for choice in 0..shape.choices {
        let nodes = nodes_of(alloc, shape.text, choice)?;
        let is_wanted = is_reported(rt, alloc, &nodes, tests, shape);
        drop(nodes);
        if !is_wanted? {
            return Ok(false);
        }
    }
    Ok(true)
}

fn all_of_shape<R: Threads + Sync>(rt: &R, alloc: Global, shape: Shape) -> Result<bool, Fail> {
    let tests = all_tests(alloc)?;
    let is_wanted = are_reported(rt, alloc, tests.as_str(), shape);
    drop(tests);
    is_wanted
}

fn shape_of(text: &'static str, conditions: u32, vectors: u32, choices: u32) -> Shape {
    Shape {
        text,
        conditions,
        vectors,
        choices,
    }
}

#[test]
fn expressions_of_up_to_three_conditions(rt: HostRuntime) -> Result<(), Fail> {
    let alloc = rt.alloc();
    assert!(rt; all_of_shape(&rt, alloc, shape_of("l", 1, 3, 2))?);
    assert!(rt; all_of_shape(&rt, alloc, shape_of("ll.", 2, 9, 16))?);
    assert!(rt; all_of_shape(&rt, alloc, shape_of("ll.l.", 3, 27, 128))?);
    assert!(rt; all_of_shape(&rt, alloc, shape_of("lll..", 3, 27, 128))?);
    Ok(())
}

/// The right operand of the last operator is one condition.
#[test]
fn expressions_of_four_conditions_with_one_last(rt: HostRuntime) -> Result<(), Fail> {
    let alloc = rt.alloc();
    assert!(rt; all_of_shape(&rt, alloc, shape_of("ll.l.l.", 4, 81, 1024))?);
    assert!(rt; all_of_shape(&rt, alloc, shape_of("lll..l.", 4, 81, 1024))?);
    Ok(())
}

/// The right operand of the last operator is two conditions.
#[test]
fn expressions_of_four_conditions_with_two_last(rt: HostRuntime) -> Result<(), Fail> {
    assert!(rt; all_of_shape(&rt, rt.alloc(), shape_of("ll.ll..", 4, 81, 1024))?);
    Ok(())
}

/// The right operand of the last operator is three conditions.
#[test]
fn expressions_of_four_conditions_with_three_last(rt: HostRuntime) -> Result<(), Fail> {
    let alloc = rt.alloc();
    assert!(rt; all_of_shape(&rt, alloc, shape_of("lll.l..", 4, 81, 1024))?);
    assert!(rt; all_of_shape(&rt, alloc, shape_of("llll...", 4, 81, 1024))?);
    Ok(())
}
