//! Remarks on mistakes in names, and on faults of a text.

ghost use Rattle.std.specs.Prelude.{◌<◌, ◌^◌, length};
ghost use Rattle.tree.specs.Programs.{program};
ghost use Rattle.tree.specs.Trees.{program_tree};

use declarations::{Limit, Mistake, NameSort, add_twice, add_unknown, findings_of};
use explanations::Line;
use names::judge_names;
use remarks::{fault_remark, remark};
use source::{Place, Span, TextFault, lex};
use std::alloc::Global;
use std::test::Fail;
use syntax::parse;
use tree::Tree;

/// Returns the line of a remark; a dash if there is none.
fn line_of(alloc: Global, said: Option<Line>) -> Result<String, Fail> {
    match said {
        Some(said) => {
            let Place { line, col } = said.place;
            let text = String::from_utf8_lossy(alloc, &said.text)?;
            Ok(format!(in alloc; "{line}:{col} {text}\n")?)
        }
        None => Ok(format!(in alloc; "-\n")?),
    }
}

/// Returns all mistakes in the names of a text, in the order in which they are judged.
fn mistakes_in(alloc: Global, tree: &Tree, text: &[u8]) -> Result<Vec<Mistake>, Fail>
    requires few { length (program (program_tree tree.now)) < 2 ^ 32 }
{
    match judge_names(alloc, tree, text)? {
        Ok(_resolved) => Ok(Vec::new(alloc)),
        Err(mistakes) => Ok(mistakes),
    }
}

/// Returns the remarks on the mistakes in the names of a text, a line each, in the order in which the mistakes are judged.
fn remarks_in(alloc: Global, text: &str) -> Result<String, Fail> {
    let tokens = lex(alloc, text.as_bytes())?;
    let tree = parse(alloc, &tokens)?;
    let mut lines = String::new(alloc);
    for mistake in &mistakes_in(alloc, &tree, text.as_bytes())? {
        let said = remark(alloc, text.as_bytes(), &tree.items, *mistake)?;
        lines.push_str(&line_of(alloc, said)?)?;
    }
    Ok(lines)
}

#[test]
fn mistakes_in_a_method(rt: HostRuntime) -> Result<(), Fail> {
    let text = "contract C { in message M(); state S: M? -> E; state E: ; }
rep struct D { int n; }
class K { static void F(D* in ExHeap p, C.Exp e) {
  int k = p; int k = true;
  e.SendM(1);
  F(p);
  lost = 1;
  break;
} }";
    let wanted = "4:11 expected int, found D* in ExHeap
4:22 expected int, found bool
4:7 first declared here
5:5 the exporter does not send M
5:5 expected 0, found 1
6:3 expected 2, found 1
-
8:3 break must be in a loop or a switch
";
    assert_eq!(rt; remarks_in(rt.alloc(), text)?.as_str(), wanted);
    Ok(())
}

/// Each unknown name gets the nearest one of its sort, at the place where that is declared.
#[test]
fn nearest_names(rt: HostRuntime) -> Result<(), Fail> {
    let text = "contract Bell { in message Ring(); state Wait: Rang? -> Wit; }
rep struct Page { int size; }
class Reader { static void Read(Page* in ExHeap page, Bel.Imp:Wait bell) {
  page.sise = pages.size;
  Reed(page); Render.Read(page); Reader.Rea(page);
  Pge* in ExHeap other = new[ExHeap] Pag();
  bell.SendRing();
} }";
    let wanted = "1:28 the nearest name is Ring
1:42 the nearest name is Wait
1:10 the nearest name is Bell
2:23 the nearest name is size
3:49 the nearest name is page
3:28 the nearest name is Read
3:7 the nearest name is Reader
3:28 the nearest name is Read
2:12 the nearest name is Page
2:12 the nearest name is Page
";
    assert_eq!(rt; remarks_in(rt.alloc(), text)?.as_str(), wanted);
    Ok(())
}

/// A name is declared twice only if an earlier one is given.
#[test]
fn added_mistakes(rt: HostRuntime) -> Result<(), Fail> {
    let name = Span {
        start: 0,
        end: 1,
        place: Place { line: 2, col: 3 },
    };
    let first = Span {
        start: 4,
        end: 5,
        place: Place { line: 1, col: 5 },
    };
    let mut found = Vec::new(rt.alloc());
    add_unknown(name, NameSort::Struct, &mut found)?;
    add_twice(name, None, &mut found)?;
    add_twice(name, Some(first), &mut found)?;
    assert_eq!(rt; found.len(), 2);
    assert!(rt; found[0] == Mistake::Unknown(name, NameSort::Struct));
    assert!(rt; found[1] == Mistake::DeclaredTwice(name, first.place));
    Ok(())
}

/// There are as many findings as mistakes, each at the place of its mistake.
#[test]
fn findings_of_mistakes(rt: HostRuntime) -> Result<(), Fail> {
    let text = "class K { static void F() { continue; x = y; } }";
    let alloc = rt.alloc();
    let tokens = lex(alloc, text.as_bytes())?;
    let tree = parse(alloc, &tokens)?;
    let mistakes = mistakes_in(alloc, &tree, text.as_bytes())?;
    let mut lines = String::new(alloc);
    for finding in &findings_of(alloc, text.as_bytes(), &mistakes)? {
        let Place { line, col } = finding.place;
        let said = finding.text.as_str();
        lines.push_str(&format!(in alloc; "{line}:{col} {said}\n")?)?;
    }
    let wanted = "1:29 continue outside
1:39 x unknown
1:43 y unknown
";
    assert_eq!(rt; lines.as_str(), wanted);
    Ok(())
}

#[test]
fn faults_of_a_text(rt: HostRuntime) -> Result<(), Fail> {
    let alloc = rt.alloc();
    let place = Place { line: 2, col: 3 };
    let mut lines = String::new(alloc);
    for fault in [
        TextFault::Stray(place),
        TextFault::OpenComment(place),
        TextFault::TooLong,
        TextFault::TooDeep(place),
        TextFault::TooLarge(place),
        TextFault::Memory,
    ] {
        lines.push_str(&line_of(alloc, fault_remark(alloc, fault)?)?)?;
    }
    let wanted = "2:3 no token or comment starts here
2:3 this comment is not closed with */
1:1 a text may have at most 4194304 bytes
2:3 at most 100 brackets may be open at once
2:3 the largest number is 2147483647
-
";
    assert_eq!(rt; lines.as_str(), wanted);
    Ok(())
}

#[test]
fn limits(rt: HostRuntime) -> Result<(), Fail> {
    assert!(rt; Limit::Contracts.most() == 256 && Limit::States.most() == 500_000);
    assert!(rt; Limit::Parameters.most() == 8 && Limit::Fields.most() == 8);
    assert!(rt; Limit::Methods.most() == 4096 && Limit::Variables.most() == 1000);
    Ok(())
}
