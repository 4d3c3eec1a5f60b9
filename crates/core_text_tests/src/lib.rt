// Rows of numbers, on examples: as read from a text, and as made by hand.
#![tactic(auto)]

#[cfg(test)]
mod tests {
    use core_text::line::{LineError, Row};
    use rules::term::WIDTH;
    use std::test::Fail;

    // This many numbers of a row that has a 7 at each place.
    fn sevens(length: usize) -> Row {
        let numbers = [7; WIDTH];
        Row { numbers, length }
    }

    #[test]
    fn read_row(rt: HostRuntime) -> Result<(), Fail> {
        let Ok(row) = "3,-2,0,5".parse::<Row>() else {
            assert!(rt; false);
            return Ok(());
        };
        let places = row.places();
        assert!(rt; row.length == 4);
        assert!(rt; places[0] == 3 && places[1] == -2 && places[2] == 0 && places[3] == 5);
        assert!(rt; places[4] == 0 && places[79] == 0);
        Ok(())
    }

    // What stands past the length is no number of the row.
    #[test]
    fn row_by_hand(rt: HostRuntime) -> Result<(), Fail> {
        let places = sevens(2).places();
        assert!(rt; places[0] == 7 && places[1] == 7);
        assert!(rt; places[2] == 0 && places[79] == 0);
        assert!(rt; sevens(0).places()[0] == 0);
        Ok(())
    }

    // A length past all places, as one that is all of them.
    #[test]
    fn long_row(rt: HostRuntime) -> Result<(), Fail> {
        assert!(rt; sevens(80).places()[79] == 7);
        assert!(rt; sevens(81).places()[79] == 7);
        assert!(rt; sevens(usize::MAX).places()[0] == 7);
        Ok(())
    }

    #[test]
    fn refused_row(rt: HostRuntime) -> Result<(), Fail> {
        assert!(rt; "1,x".parse::<Row>().err() == Some(LineError::Number));
        Ok(())
    }
}
