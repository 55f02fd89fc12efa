//! Questions in the order of asking, entries as they are printed, and small parts of both.
use crate::disjuncts::stale_iterators;
use crate::heaps::specification;
use access_paths::Var;
use cube_search::row_of;
use cv_base::{List, Memory};
use cv_layout::Page;
use easl_model::{Key, Mark, Name};
use method_abstraction::{
    Abstraction, ClauseFacts, Disjunct, Question, Update, clause_questions, print_abstraction,
    update_questions,
};
use question_model::Value;
use std::alloc::{AllocError, Global};
use std::test::Fail;

#[test]
fn questions_are_asked_in_order(rt: HostRuntime) -> Result<(), Fail> {
    let alloc = rt.alloc();
    let Ok(spec) = specification(alloc) else {
        assert!(rt; false, "not read");
        return Ok(());
    };
    let remove = Question::Clause {
        method: 1,
        clause: 1,
    };
    let next = Question::Clause {
        method: 2,
        clause: 1,
    };
    let clauses = clause_questions(alloc, &spec)?;
    assert_eq!(rt; clauses.as_slice(), [remove, next].as_slice());
    let family = stale_iterators(alloc)?;
    let updates = update_questions(alloc, &spec, 0, &family)?;
    let asked: [(u32, u32); 9] = [
        (0, 0),
        (0, 1),
        (1, 0),
        (2, 0),
        (3, 0),
        (4, 0),
        (5, 0),
        (5, 1),
        (6, 0),
    ];
    assert_eq!(rt; updates.len(), asked.len());
    for (update, (method, results)) in updates.iter().zip(&asked) {
        let question = Question::Update {
            method: *method,
            results: *results,
            family: 0,
        };
        assert_eq!(rt; *update, question);
    }
    Ok(())
}

/// The first family of `this`.
fn of_this(alloc: Global) -> Result<List<Disjunct>, AllocError> {
    let this = List::from_vec(vec![in alloc; Var(3)]?);
    Ok(List::from_vec(vec![in alloc; Disjunct::Of(0, this)]?))
}

fn entries(alloc: Global) -> Result<Abstraction, AllocError> {
    let remove = ClauseFacts {
        method: 1,
        clause: 1,
        disjuncts: of_this(alloc)?,
    };
    let next = ClauseFacts {
        method: 2,
        clause: 1,
        disjuncts: of_this(alloc)?,
    };
    let made = Update {
        method: 0,
        results: 1,
        family: 0,
        disjuncts: List::from_vec(Vec::new(alloc)),
    };
    Ok(Abstraction {
        families: List::from_vec(vec![in alloc; stale_iterators(alloc)?]?),
        clauses: List::from_vec(vec![in alloc; remove, next]?),
        updates: List::from_vec(vec![in alloc; made]?),
    })
}

const PRINTED: &str = "families 1
F1 (Iterator x1) x1.defVer != x1.set.ver
clauses
Iterator.remove 1: F1(this)
Iterator.next 1: F1(this)
updates
Iterator.new {x1} F1: never
";

#[test]
fn entries_are_printed(rt: HostRuntime) -> Result<(), Fail> {
    let alloc = rt.alloc();
    let Ok(spec) = specification(alloc) else {
        assert!(rt; false, "not read");
        return Ok(());
    };
    let text = print_abstraction(alloc, &spec, &entries(alloc)?)?;
    assert_eq!(rt; text.as_slice(), PRINTED.as_bytes());
    Ok(())
}

#[test]
fn a_line_is_put_on_a_page(rt: HostRuntime) -> Result<(), Fail> {
    let name = Name(String::from_str(rt.alloc(), "A")?);
    let mut page = Page::new(rt.alloc());
    page.start(1)?;
    page.key(Key::Class)?;
    page.word(&name)?;
    page.mark(Mark::Begin)?;
    page.end()?;
    assert_eq!(rt; page.text.0.as_slice(), "  class A {\n".as_bytes());
    Ok(())
}

#[test]
fn rows_have_the_bits_of_true_places(rt: HostRuntime) -> Result<(), Memory> {
    let row = row_of(rt.alloc(), &[true, false, true])?;
    assert_eq!(rt; row.0.as_slice(), [5].as_slice());
    Ok(())
}

#[test]
fn values_are_made_again(rt: HostRuntime) -> Result<(), Fail> {
    let value = Value::Fresh(2, 1);
    assert!(rt; matches!(value.twin(rt.alloc())?, Value::Fresh(2, 1)));
    Ok(())
}
