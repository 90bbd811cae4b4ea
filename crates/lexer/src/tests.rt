// Which lines are names lines, and what their views answer.
use crate::names::Names;
use std::test::Fail;

#[test]
fn names_lines(rt: HostRuntime) -> Result<(), Fail> {
    let good: [&[u8]; 5] = [
        b"a",
        b"crank oil",
        b"eightlet",
        b"ab a b",
        b"a b c d e f g h i j k l m n o p q r s t u v w x y z bba bbb bbc bbd bbe bbf",
    ];
    for line in good.iter() {
        let _names = Names::new(*line)?;
    }
    let bad: [&[u8]; 14] = [
        b"",
        b" ",
        b"a ",
        b" a",
        b"a  b",
        b"a a",
        b"b a b",
        b"Crank",
        b"egt1",
        b"ninelette",
        b"a\tb",
        b"a\n",
        b"a-b",
        b"a b c d e f g h i j k l m n o p q r s t u v w x y z bba bbb bbc bbd bbe bbf zz",
    ];
    for line in bad.iter() {
        match Names::new(*line) {
            Ok(_) => return Err(Fail::new("a bad line was taken")),
            Err(refusal) => assert_eq!(rt; refusal.number(), 18),
        }
    }
    let names = Names::new(b"crank oil a eightlet")?;
    assert_eq!(rt; names.count(), 4);
    assert!(rt; names.get(1).ok_or("no name")? == b"oil".as_slice());
    assert!(rt; names.get(4).is_none());
    assert!(rt; names.get(255).is_none());
    assert_eq!(rt; names.find(b"a"), Some(2));
    assert_eq!(rt; names.find(b"cran"), None);
    assert_eq!(rt; names.find(b"cranks"), None);
    assert_eq!(rt; names.find(b""), None);
    Ok(())
}
