// A sheet as a holder of rules, on examples.
#![tactic(auto)]

#[cfg(test)]
mod tests {
    use engine::holder::RuleHolder;
    use faults::fault::{EngineFault, RunFault};
    use ledger::state::Sheet;
    use rules::Mark;
    use rules::term::{Literal, Term, WIDTH};
    use std::test::Fail;
    use table::WORDS;

    // 3 parts and one rule: 2 -x1 + 3 x2 >= 2
    fn small() -> [i32; 2668] {
        let mut table = [0i32; WORDS];
        table[0] = 3;
        table[1] = 1;
        table[44] = 2;
        table[45] = -2;
        table[46] = 3;
        table
    }

    fn term(coefficient: u32, variable: usize, negated: bool) -> Term {
        Term {
            coefficient,
            literal: Literal { variable, negated },
        }
    }

    #[test]
    fn adds_a_row(rt: HostRuntime) -> Result<(), Fail> {
        let Ok(mut sheet) = Sheet::from_table(&small()) else {
            assert!(rt; false);
            return Ok(());
        };
        assert!(rt; sheet.add(&[term(4, 0, false), term(5, 2, true)], 6).is_ok());
        assert!(rt; sheet.rules() == 2);
        let table = sheet.table();
        assert!(rt; table[1] == 2 && table[85] == 6);
        assert!(rt; table[86] == 4 && table[87] == 0 && table[88] == -5);
        Ok(())
    }

    #[test]
    fn refuses(rt: HostRuntime) -> Result<(), Fail> {
        let Ok(mut sheet) = Sheet::from_table(&small()) else {
            assert!(rt; false);
            return Ok(());
        };
        assert!(rt;
            sheet.add(&[term(1, 0, false), term(1, 3, false)], 1) == Err(EngineFault::Term(1))
        );
        assert!(rt; sheet.add(&[term(1_000_001, 0, false)], 1) == Err(EngineFault::Term(0)));
        assert!(rt; sheet.add(&[term(1, 0, false)], 140_000_001) == Err(EngineFault::Term(1)));
        assert!(rt; sheet.rules() == 1);
        Ok(())
    }

    #[test]
    fn finds_the_broken_rule(rt: HostRuntime) -> Result<(), Fail> {
        let Ok(mut sheet) = Sheet::from_table(&small()) else {
            assert!(rt; false);
            return Ok(());
        };
        assert!(rt; sheet.add(&[term(1, 2, false)], 1).is_ok());
        let mut marks = [Mark::Free; WIDTH];
        marks[2] = Mark::Zero;
        assert!(rt; sheet.first_broken(&marks) == Some(1));
        marks[0] = Mark::One;
        marks[1] = Mark::Zero;
        assert!(rt; sheet.first_broken(&marks) == Some(0));
        Ok(())
    }

    #[test]
    fn refuses_a_table(rt: HostRuntime) -> Result<(), Fail> {
        let mut table = small();
        table[46] = 1_000_001;
        match Sheet::from_table(&table) {
            Ok(_) => {
                assert!(rt; false);
                Ok(())
            },
            Err(fault) => {
                assert!(rt; fault == RunFault::Layout(46));
                Ok(())
            },
        }
    }
}
