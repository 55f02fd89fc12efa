//! Specifications in the canonical layout.
ghost use Rattle.std.specs.Prelude.{◌≤◌, length};

use cv_lex::TextFault;
use easl_parser::read_spec;
use easl_print::print_spec;
use std::alloc::Global;
use std::test::Fail;

const LOOSE: &[u8] = b"// a comment
class A{A f;A g;A(A x,String s,int n,boolean b){f=x;this.g=x.f;}/* one
more */ A m(A a,int b)
{requires(a==f||(a==this.f||a!=f))&&(a==f&&a==f)&&a.g==f.g.f;requires a==a||a==f&&a!=g;
if(a==f){A c=new A(this,\"\\\"\xc3\xa9\",07,true);if(f!=this){}}else{a.f=a;a=new A(a,\"\",1,false);}return a;}
void n(){}}class B{}class \xc3\xa9{B b;\xc3\xa9(){b=new B();}}";

const LAID_OUT: &[u8] = b"class A {
  A f;
  A g;
  A(A x, String s, int n, boolean b) {
    f = x;
    this.g = x.f;
  }
  A m(A a, int b) {
    requires (a == f || (a == this.f || a != f)) && (a == f && a == f) && a.g == f.g.f;
    requires a == a || a == f && a != g;
    if (a == f) {
      A c = new A(this, \"\\\"\xc3\xa9\", 07, true);
      if (f != this) {
      }
    } else {
      a.f = a;
      a = new A(a, \"\", 1, false);
    }
    return a;
  }
  void n() {
  }
}
class B {
}
class \xc3\xa9 {
  B b;
  \xc3\xa9() {
    b = new B();
  }
}
";

/// What is printed of the specification that the text spells.
fn printed(alloc: Global, text: &[u8]) -> Result<Vec<u8>, TextFault>
    requires { length text.now ≤ 65536 }
{
    let spec = read_spec(alloc, text)?;
    Ok(print_spec(alloc, &spec)?)
}

#[test]
fn texts_are_laid_out(rt: HostRuntime) -> Result<(), Fail> {
    let first = printed(rt.alloc(), LOOSE)?;
    assert_eq!(rt; first.as_slice(), LAID_OUT);
    let second = printed(rt.alloc(), LAID_OUT)?;
    assert_eq!(rt; second.as_slice(), LAID_OUT);
    Ok(())
}
