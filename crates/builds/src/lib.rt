// What a build is: form and names, passes until the numbers repeat, and the tries. This is a definition, so there is no code here:
// specs/Build.antt has the build, specs/Refusals.antt the numbers with which one is refused.
#![tactic(auto)]
