//! Systems of groups of variables, with as many extreme rows as a cone may have and with more.
use run_examples::{ended, ends_so};
use std::alloc::Global;
use std::test::Fail;

/// Variables in groups, each group at most the next one, so that an extreme row has one variable of each group from
/// some group on.
struct Groups {
    vars: &'static str,
    inequalities: &'static str,
    variables: u32,
    sizes: &'static [u8],
    /// So many variables at the end stand in no inequality.
    free: u32,
    /// The product of the sizes, each with one added.
    choices: u32,
}

const VARS_31: &str =
    "semiring max\nvars v1 v2 v3 v4 v5 v6 v7 v8 v9 v10 v11 v12 v13 v14 v15 v16 v17 v18 v19 v20 v21 v22 v23 v24 v25 v26 v27 v28 v29 v30 v31\n";

const VARS_32: &str =
    "semiring max\nvars v1 v2 v3 v4 v5 v6 v7 v8 v9 v10 v11 v12 v13 v14 v15 v16 v17 v18 v19 v20 v21 v22 v23 v24 v25 v26 v27 v28 v29 v30 v31 v32\n";

const VARS_63: &str =
    "semiring max\nvars v1 v2 v3 v4 v5 v6 v7 v8 v9 v10 v11 v12 v13 v14 v15 v16 v17 v18 v19 v20 v21 v22 v23 v24 v25 v26 v27 v28 v29 v30 v31 v32 v33 v34 v35 v36 v37 v38 v39 v40 v41 v42 v43 v44 v45 v46 v47 v48 v49 v50 v51 v52 v53 v54 v55 v56 v57 v58 v59 v60 v61 v62 v63\n";

const FIVE_GROUPS: &str =
    "max(v1, v2, v3, v4, v5, v6) <= max(v7, v8, v9, v10, v11, v12)\nmax(v7, v8, v9, v10, v11, v12) <= max(v13, v14, v15, v16, v17, v18)\nmax(v13, v14, v15, v16, v17, v18) <= max(v19, v20, v21, v22, v23, v24)\nmax(v19, v20, v21, v22, v23, v24) <= max(v25, v26, v27, v28, v29, v30, v31)\n";

const ANSWERED: [Groups; 3] = [
    Groups {
        vars: VARS_31,
        inequalities: "max(v1, v2, v3, v4, v5, v6, v7, v8) <= max(v9, v10, v11, v12, v13, v14, v15, v16)\nmax(v9, v10, v11, v12, v13, v14, v15, v16) <= max(v17, v18, v19, v20, v21, v22, v23, v24)\nmax(v17, v18, v19, v20, v21, v22, v23, v24) <= max(v25, v26, v27, v28, v29, v30, v31)\n",
        variables: 31,
        sizes: &[8, 8, 8, 7],
        free: 0,
        choices: 5832,
    },
    Groups {
        vars: VARS_31,
        inequalities: "max(v1, v2, v3, v4, v5, v6) <= max(v7, v8, v9, v10, v11, v12)\nmax(v7, v8, v9, v10, v11, v12) <= max(v13, v14, v15, v16, v17, v18)\nmax(v13, v14, v15, v16, v17, v18) <= max(v19, v20, v21, v22, v23, v24)\n",
        variables: 31,
        sizes: &[6, 6, 6, 6],
        free: 7,
        choices: 2401,
    },
    Groups {
        vars: VARS_63,
        inequalities: "max(v1, v2, v3, v4, v5, v6, v7, v8, v9, v10, v11, v12, v13, v14, v15, v16, v17, v18, v19, v20, v21, v22, v23, v24, v25, v26, v27, v28, v29, v30, v31, v32) <= max(v33, v34, v35, v36, v37, v38, v39, v40, v41, v42, v43, v44, v45, v46, v47, v48, v49, v50, v51, v52, v53, v54, v55, v56, v57, v58, v59, v60, v61, v62, v63)\n",
        variables: 63,
        sizes: &[32, 31],
        free: 0,
        choices: 1056,
    },
];

// Files with one inequality too many, and the line that `ext` writes to the sink of errors.
const REFUSED: [(&str, &str, u8, &str); 4] = [
    ("the fifth group", "", 4, "tplib: limit: inequalities 4\n"),
    (
        "inequalities behind it that would undo it",
        "v1 <= v1\nv2 <= v1\n",
        4,
        "tplib: limit: inequalities 4\n",
    ),
    (
        "a fault of the text behind it",
        "z <= v1\n",
        3,
        "tplib: line 8: unknown name\n",
    ),
    (
        "a fault of the text in a later line",
        "v1 <= v1\nz <= v1\n",
        3,
        "tplib: line 9: unknown name\n",
    ),
];

// The variables that a choice takes, one of each group from some group on, as bits. A group of k variables has k + 1
// choices: none, and then its variables from the last to the first.
fn chosen(groups: &Groups, choice: u32) -> Option<u64> {
    let mut behind = groups.variables.wrapping_sub(groups.free);
    let mut rest = choice;
    let mut taken = 0u64;
    let mut may_take = true;
    for size in groups.sizes.iter().rev() {
        let options = u32::from(*size) + 1;
        let option = rest % options;
        rest /= options;
        if option == 0 {
            may_take = false;
        } else if may_take {
            taken |= 1u64.wrapping_shl(behind.wrapping_sub(option));
        } else {
            return None;
        }
        behind = behind.wrapping_sub(u32::from(*size));
    }
    if taken == 0 { None } else { Some(taken) }
}

fn push_row(text: &mut Vec<u8>, word: &[u8], taken: u64, variables: u32) -> Result<(), Fail> {
    text.extend_from_slice(word)?;
    for place in 0..variables {
        let between: &[u8] = if place == 0 { b" [" } else { b", " };
        text.extend_from_slice(between)?;
        let is_taken = taken & 1u64.wrapping_shl(place) != 0;
        let entry: &[u8] = if is_taken { b"0" } else { b"-oo" };
        text.extend_from_slice(entry)?;
    }
    text.extend_from_slice(b"]\n")?;
    Ok(())
}

fn push_free_rows(text: &mut Vec<u8>, groups: &Groups) -> Result<(), Fail> {
    for back in 1..=groups.free {
        let place = groups.variables.wrapping_sub(back);
        push_row(text, b"ray", 1u64.wrapping_shl(place), groups.variables)?;
    }
    Ok(())
}

fn push_chosen_rows(text: &mut Vec<u8>, groups: &Groups) -> Result<(), Fail> {
    for choice in 0..groups.choices {
        if let Some(taken) = chosen(groups, choice) {
            push_row(text, b"ray", taken, groups.variables)?;
        }
    }
    Ok(())
}

fn extreme_rows_of(alloc: Global, groups: &Groups) -> Result<Vec<u8>, Fail> {
    let mut text = Vec::from_slice(alloc, b"kind gens\n")?;
    text.extend_from_slice(groups.vars.as_bytes())?;
    push_free_rows(&mut text, groups)?;
    push_chosen_rows(&mut text, groups)?;
    push_row(&mut text, b"point", 0, groups.variables)?;
    Ok(text)
}

fn system_of(alloc: Global, vars: &str, inequalities: &str) -> Result<Vec<u8>, Fail> {
    let mut text = Vec::from_slice(alloc, b"kind ineqs\n")?;
    text.extend_from_slice(vars.as_bytes())?;
    text.extend_from_slice(inequalities.as_bytes())?;
    Ok(text)
}

#[test]
fn groups_of_variables_have_up_to_4096_extreme_rows(rt: HostRuntime) -> Result<(), Fail> {
    let alloc = rt.alloc();
    for groups in &ANSWERED {
        let input = system_of(alloc, groups.vars, groups.inequalities)?;
        let rows = extreme_rows_of(alloc, groups)?;
        ends_so(alloc, groups.inequalities, "ext", &input, (0, &rows, b""))?;
    }
    Ok(())
}

#[test]
fn groups_of_variables_past_the_row_limit(rt: HostRuntime) -> Result<(), Fail> {
    let alloc = rt.alloc();
    for (why, more, code, line) in &REFUSED {
        let mut input = system_of(alloc, VARS_31, FIVE_GROUPS)?;
        input.extend_from_slice(more.as_bytes())?;
        ends_so(alloc, why, "ext", &input, ended(*code, line))?;
    }
    Ok(())
}

// One variable more, which stands in no inequality, than the first of the systems that are answered.
#[test]
fn one_extreme_row_past_the_limit(rt: HostRuntime) -> Result<(), Fail> {
    let alloc = rt.alloc();
    let [groups, ..] = &ANSWERED;
    let input = system_of(alloc, VARS_32, groups.inequalities)?;
    let line = ended(4, "tplib: limit: inequalities 3\n");
    ends_so(alloc, "one variable more", "ext", &input, line)
}
