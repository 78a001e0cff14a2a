//! A slow reading of the grammar. It tries every alternative of every rule and looks at no token ahead.

use std::alloc::{AllocError, Global};

/// The alternatives of the rules. Of the operators of expressions, which differ only in the tree, it has some. A word
/// in angles is a rule, any other word a token, and `END` the end of the text.
/// other word a token, `END` the end of the text.
const RULES: [(&str, &str); 121] = [
    ("<program>", "END"),
    ("<program>", "<item> <program>"),
    ("<item>", "<definition>"),
    ("<item>", "<access> <definition>"),
    ("<definition>", "<contract>"),
    ("<definition>", "rep struct ID { <fields> }"),
    ("<definition>", "class ID { <methods> }"),
    ("<fields>", ""),
    ("<fields>", "<field> <fields>"),
    ("<field>", "<type> ID ;"),
    ("<field>", "<access> <type> ID ;"),
    ("<methods>", ""),
    ("<methods>", "<method> <methods>"),
    ("<methods>", "<access> <method> <methods>"),
    ("<method>", "static void ID ( <parameters> ) <block>"),
    ("<method>", "static <type> ID ( <parameters> ) <block>"),
    ("<parameters>", ""),
    ("<parameters>", "<some-parameters>"),
    ("<some-parameters>", "<parameter>"),
    ("<some-parameters>", "<parameter> , <some-parameters>"),
    ("<parameter>", "<type> ID"),
    ("<parameter>", "[ Claims ] <type> ID"),
    ("<block>", "{ <statements> }"),
    ("<statements>", ""),
    ("<statements>", "<statement> <statements>"),
    ("<statement>", "<block>"),
    ("<statement>", "<type> ID ;"),
    ("<statement>", "<type> ID = <value> ;"),
    ("<statement>", "<target> = <value> ;"),
    ("<statement>", "<call> ;"),
    ("<statement>", "start <call> ;"),
    ("<statement>", "delete ID ;"),
    ("<statement>", "exchange ( ID . ID , ID ) ;"),
    ("<statement>", "ID . NewChannel ( out ID , out ID ) ;"),
    ("<statement>", "if ( <expression> ) <block> <else>"),
    ("<else>", ""),
    ("<else>", "else <block>"),
    ("<else>", "else if ( <expression> ) <block> <else>"),
    ("<statement>", "while ( <expression> ) <block>"),
    ("<statement>", "break ;"),
    ("<statement>", "continue ;"),
    ("<statement>", "return ;"),
    ("<statement>", "return <expression> ;"),
    ("<statement>", "switch receive { <case> <cases> }"),
    ("<cases>", ""),
    ("<cases>", "<case> <cases>"),
    ("<case>", "case ID . <awaited> ( <binds> ) : <statements>"),
    ("<awaited>", "ID"),
    ("<awaited>", "ChannelClosed"),
    ("<binds>", ""),
    ("<binds>", "<some-binds>"),
    ("<some-binds>", "<bind>"),
    ("<some-binds>", "<bind> , <some-binds>"),
    ("<bind>", "ID"),
    ("<bind>", "<type> ID"),
    ("<target>", "ID"),
    ("<target>", "ID . ID"),
    ("<target>", "ID [ <expression> ]"),
    ("<value>", "<expression>"),
    ("<value>", "<call>"),
    ("<value>", "new [ ExHeap ] ID ( <arguments> )"),
    ("<value>", "new [ ExHeap ] <scalar> [ <expression> ]"),
    ("<call>", "ID ( <arguments> )"),
    ("<call>", "ID . ID ( <arguments> )"),
    ("<arguments>", ""),
    ("<arguments>", "<some-arguments>"),
    ("<some-arguments>", "<expression>"),
    ("<some-arguments>", "<expression> , <some-arguments>"),
    ("<expression>", "<unary>"),
    ("<expression>", "<unary> <operator> <expression>"),
    ("<operator>", "+"),
    ("<operator>", "*"),
    ("<operator>", "=="),
    ("<unary>", "<atom>"),
    ("<unary>", "! <unary>"),
    ("<atom>", "7"),
    ("<atom>", "<target>"),
    ("<atom>", "( <expression> )"),
    ("<access>", "public"),
    ("<access>", "private"),
    ("<access>", "internal"),
    ("<contract>", "contract ID { <messages> <state> <members> }"),
    ("<messages>", ""),
    ("<messages>", "<message> <messages>"),
    ("<members>", ""),
    ("<members>", "<message> <members>"),
    ("<members>", "<state> <members>"),
    ("<message>", "<direction> message ID ( ) ;"),
    ("<message>", "<direction> message ID ( <params> ) ;"),
    ("<direction>", "in"),
    ("<direction>", "out"),
    ("<params>", "<type> ID"),
    ("<params>", "<type> ID , <params>"),
    ("<type>", "<scalar>"),
    ("<type>", "<heap>"),
    ("<scalar>", "int"),
    ("<scalar>", "bool"),
    ("<scalar>", "byte"),
    ("<heap>", "ID * <bang> in ExHeap"),
    ("<heap>", "<scalar> [ ] <bang> in ExHeap"),
    ("<heap>", "ID . <side> <bang> <held>"),
    ("<heap>", "ID . <side> : ID <bang> <held>"),
    ("<side>", "Imp"),
    ("<side>", "Exp"),
    ("<bang>", ""),
    ("<bang>", "!"),
    ("<held>", ""),
    ("<held>", "in ExHeap"),
    ("<state>", "state ID : ;"),
    ("<state>", "state ID : <path> ;"),
    ("<state>", "state ID : one { <paths> } <end>"),
    ("<paths>", ""),
    ("<paths>", "<path> ; <paths>"),
    ("<end>", ""),
    ("<end>", ";"),
    ("<path>", "<edges> ID"),
    ("<edges>", "<edge>"),
    ("<edges>", "<edge> <edges>"),
    ("<edge>", "ID <sign> ->"),
    ("<sign>", "!"),
    ("<sign>", "?"),
];

/// What may still come: lists of parts, each with its first part last.
pub type Rests = Vec<Vec<&'static str>>;

/// Returns what may come at the beginning of a text.
pub fn start(alloc: Global) -> Result<Rests, AllocError> {
    let mut rests = Vec::new(alloc);
    rests.push(vec![in alloc; "<program>"]?)?;
    Ok(rests)
}

/// Returns what may come after this token; nothing if it is wrong.
pub fn step(alloc: Global, mut rests: Rests, word: &str) -> Result<Rests, AllocError> {
    let mut after = Vec::new(alloc);
    for _ in 0..1_000_000 {
        let Some(mut rest) = rests.pop() else {
            break;
        };
        let Some(part) = rest.pop() else {
            continue;
        };
        if part == word {
            after.push(rest)?;
        } else if part.starts_with("<") {
            expand(&mut rests, &rest, part)?;
        }
    }
    Ok(after)
}

/// Adds what may come if this rule is next: a list for each of its alternatives.
fn expand(rests: &mut Rests, rest: &Vec<&'static str>, rule: &str) -> Result<(), AllocError> {
    for (name, alternative) in RULES.iter() {
        if *name == rule {
            let mut with = rest.clone()?;
            for part in alternative.split_whitespace().rev() {
                with.push(part)?;
            }
            rests.push(with)?;
        }
    }
    Ok(())
}
