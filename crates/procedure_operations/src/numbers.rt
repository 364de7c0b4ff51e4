// Function numbers and variable numbers: "two sets with nothing in common", made only where their range is known.
ghost use Rattle.std.specs.Prelude.{◌≡◌, ◌<◌};
ghost use Rattle.parsing.specs.declared.reason.Reason.TheVariants.{MissingVariable, MissingFunction};
ghost use Rattle.procedure_operations.specs.Numbers.{max_functions, max_variables, found, function_as, variable_as};

// As usize: of neighbouring bytes the compiler makes one load, and takes it apart again, 1.4 instructions more a step of the bench (docs/MEASURES.md).
#[derive(Drop)]
pub struct FunctionNumber(usize);

#[derive(Drop)]
pub struct VariableNumber(usize);

impl FunctionNumber {
    pub fn index(self) -> usize
        ensures { result ≡ self.0 }
    {
        self.0
    }
}

impl VariableNumber {
    pub fn index(self) -> usize
        ensures { result ≡ self.0 }
    {
        self.0
    }
}

// The number of a function, of `functions`.
pub fn function_number(g: u8, functions: usize) -> Option<FunctionNumber>
    ensures { function_as result ≡ found MissingFunction g functions }
{
    let number = usize::from(g);
    if number < functions {
        Some(FunctionNumber(number))
    } else {
        None
    }
}

// The number of a variable, of `variables`. (Each set has its own function of one test: one for both needs a trait that makes either number.)
pub fn variable_number(x: u8, variables: usize) -> Option<VariableNumber>
    ensures { variable_as result ≡ found MissingVariable x variables }
{
    let number = usize::from(x);
    if number < variables {
        Some(VariableNumber(number))
    } else {
        None
    }
}

// The number of a function of a checked file.
pub fn checked_function(g: u8) -> FunctionNumber
    requires { g < max_functions }
    ensures { result.0 ≡ g }
{
    FunctionNumber(usize::from(g))
}

// The number of a variable of a checked file.
pub fn checked_variable(x: u8) -> VariableNumber
    requires { x < max_variables }
    ensures { result.0 ≡ x }
{
    VariableNumber(usize::from(x))
}
