// Theory alone: polynomials over GF(2) as numbers. Definitions and laws stand in specs/.
