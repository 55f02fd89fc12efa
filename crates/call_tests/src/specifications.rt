//! Specifications that are read.
use cv_lex::{TextFault, Which};
use easl_model::{Code, Cond, Member, Opaque, Place, Requires, Return, Sort, Step, Value};
use easl_parser::read_spec;
use std::test::Fail;

const TEXT: &[u8] = b"class Set {
  Version ver;
  Set(Version v, int n) { this.ver = v; Version w = new Version(v, 7, true); }
  Iterator iterator(Set s) {
    requires s == this && (s.ver != ver || s == s);
    return new Iterator(s);
  }
  void clear() { }
}
class Version { }
";

#[test]
fn reads_each_rule(rt: HostRuntime) -> Result<(), Fail> {
    let spec = read_spec(rt.alloc(), TEXT)?;
    assert_eq!(rt; spec.end, Place { line: 11, col: 1 });
    let [set, version] = spec.classes.as_slice() else {
        assert!(rt; false, "two classes");
        return Ok(());
    };
    assert_eq!(rt; version.members.len(), 0);
    assert_eq!(rt; set.name.name.0.as_str(), "Set");
    let [
        Member::Field(field),
        Member::Constructor(made),
        Member::Method(method),
        Member::Method(_),
    ] = set.members.as_slice()
    else {
        assert!(rt; false, "a field, a constructor and two methods");
        return Ok(());
    };
    assert_eq!(rt; field.class.name.0.as_str(), "Version");
    assert_eq!(rt; field.name.place, Place { line: 2, col: 11 });
    assert!(rt; is_made(made));
    assert!(rt; is_iterator(method));
    Ok(())
}

fn is_made(code: &Code) -> bool {
    code.params.len() == 2
        && matches!(code.params.as_slice()[1].sort, Sort::Opaque(Opaque::Int))
        && matches!(
            code.body.as_slice(),
            [
                Step::Assign(_, Value::Path(_)),
                Step::Declare(_, _, Value::New(_))
            ]
        )
}

fn is_iterator(code: &Code) -> bool {
    matches!(code.result, Sort::Class(_))
        && matches!(
            code.clauses.as_slice(),
            [Requires {
                condition: Cond::All(_),
                ..
            }]
        )
        && matches!(
            code.value,
            Some(Return {
                value: Value::New(_),
                ..
            })
        )
        && code.end == (Place { line: 7, col: 3 })
}

#[test]
fn names_the_first_wrong_token(rt: HostRuntime) -> Result<(), Fail> {
    let read = read_spec(rt.alloc(), b"class A { B c }");
    assert!(rt; matches!(read, Err(TextFault::Syntax(Place { line: 1, col: 15 }))));
    let read = read_spec(rt.alloc(), b"class A {");
    assert!(rt; matches!(read, Err(TextFault::Syntax(Place { line: 1, col: 10 }))));
    Ok(())
}

#[test]
fn refuses_a_65th_open_bracket(rt: HostRuntime) -> Result<(), Fail> {
    let read = read_spec(rt.alloc(), &[b'('; 65]);
    let place = Place { line: 1, col: 65 };
    assert!(rt; matches!(read, Err(TextFault::Limit(Which::Nesting, at)) if at == place));
    let read = read_spec(rt.alloc(), &[b'('; 64]);
    assert!(rt; matches!(read, Err(TextFault::Syntax(Place { line: 1, col: 1 }))));
    Ok(())
}
