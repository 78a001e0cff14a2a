//! What written types mean.

use declarations::{Scope, ValueType};
use program::{Scalar, Side};
use source::lex;
use std::test::Fail;
use syntax::parse;
use tree::Definition;

const TEXT: &str =
    "contract Ping { in message Req(); out message Rep(); state Start: Req? -> Pend; state Pend: Rep! -> Start; }
rep struct Kinds {
  int number;
  bool truth;
  byte letter;
  Kinds* in ExHeap pointer;
  int[] in ExHeap array;
  Ping.Imp importer;
  Ping.Exp:Pend exporter;
  Ping* in ExHeap no_struct;
  Kinds.Imp no_contract;
  Gone* in ExHeap no_item;
  Ping.Imp:Gone no_state;
}";

#[test]
fn each_kind_of_type(rt: HostRuntime) -> Result<(), Fail> {
    let alloc = rt.alloc();
    let tokens = lex(alloc, TEXT.as_bytes())?;
    let tree = parse(alloc, &tokens)?;
    let scope = Scope::of(alloc, TEXT.as_bytes(), &tree.items)?;
    let Some(item) = tree.items.get(1) else {
        return Err(Fail::from("no struct"));
    };
    let Definition::Struct(kinds) = &item.definition else {
        return Err(Fail::from("no struct"));
    };
    let expected = [
        ValueType::Scalar(Scalar::Int),
        ValueType::Scalar(Scalar::Bool),
        ValueType::Scalar(Scalar::Byte),
        ValueType::Pointer(1),
        ValueType::Array(Scalar::Int),
        ValueType::Endpoint(Side::Imp, 0),
        ValueType::Endpoint(Side::Exp, 0),
        ValueType::Unknown,
        ValueType::Unknown,
        ValueType::Unknown,
        ValueType::Unknown,
    ];
    assert_eq!(rt; kinds.fields.len(), expected.len());
    for (index, field) in kinds.fields.iter().enumerate() {
        assert_eq!(rt;
            scope.type_meant(field.ty),
            expected[index],
            "{}",
            field.name.start
        );
    }
    Ok(())
}
